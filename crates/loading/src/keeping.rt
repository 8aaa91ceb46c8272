// Mark frames.
ghost use Rattle.std.specs.Prelude.{Some, ◌≡◌, ◌-◌, ◌≤◌, ◌<◌, length, slice_set};

use crate::{Progress, Script};
use select::Sel;

// A mark that the script has counted already.
pub fn keep_mark(script: Script, sel: Sel, marks: &mut [Option<Sel>]) -> Progress
    requires { (0 < script.place.marks) × (script.place.marks ≤ 64) × (length marks.old ≡ 64) }
    ensures { (result.script ≡ script) × (result.printed ≡ 0) × (marks.new ≡ slice_set marks.old (script.place.marks - 1) (Some sel)) }
{
    marks[script.place.marks - 1] = Some(sel);
    Progress { script, printed: 0 }
}
