// Refusals.
ghost use Rattle.std.specs.Prelude.{[], ◌∷◌, ◌≡◌, ◌≤◌, length};
ghost use Rattle.promise.specs.Slices.{over};
ghost use Rattle.edit.specs.Call.{number_of};
ghost use Rattle.printing.specs.Prints.{printed_as};

use crate::{Progress, Script};
use edit::Refusal;
use printing::{print_byte, refusal_byte};

pub fn refuse(script: Script, why: Refusal, out: &mut [u8]) -> Progress
    requires { 3 ≤ length out.old }
    ensures { (result.script ≡ script) × (result.printed ≡ 3) × (out.new ≡ over (printed_as (number_of why ∷ [])) out.old) }
{
    print_byte(refusal_byte(why), out);
    Progress { script, printed: 3 }
}
