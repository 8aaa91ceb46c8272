// Marks in a slice: none stands for one that was dropped.
#![tactic(auto)]

mod ends;

ghost use Rattle.std.specs.Prelude.{true, [], map, ◌≡◌, ◌≤◌, length};
ghost use Rattle.promise.specs.Slices.{over};
ghost use Rattle.text.specs.Text.{text_limit};
ghost use Rattle.edit.specs.Refusals.{small_ok, few_ok};
ghost use Rattle.shift.specs.Answers.{followed};
ghost use Rattle.shift.specs.Call.{ordered_ok};
ghost use Rattle.marking.specs.Slots.{marks_in, marks_over};
ghost use Rattle.marking.specs.MarkLines.{mark_line};
ghost use Rattle.marking.specs.Carries.{carried_mark};

use edit::Edit;
pub use ends::in_order;
use printing::print_byte;
use select::Sel;
use shift::carry_sel;
use writer::write_mark;

// One mark over an edit that is accepted.
#[tactic(auto, unfolding(crate::specs::Carries::carried_mark))]
fn carry_mark(
    text: &[u32],
    edit: Edit,
    payload: &[u32],
    first: &[u32],
    mark: Option<Sel>,
) -> Option<Sel>
    requires { (length text.now ≤ text_limit) × (small_ok edit first.now [] ≡ true) × (few_ok text.now edit payload.now first.now [] ≡ true) × (ordered_ok edit ≡ true) }
    ensures { followed result ≡ carried_mark text.now edit payload.now first.now (followed mark) }
{
    carry_sel(text, edit, payload, first, mark?)
}

// All of the marks over an edit of this text.
fn carry_marks(text: &[u32], edit: Edit, payload: &[u32], first: &[u32], marks: &mut [Option<Sel>])
    requires { (length text.now ≤ text_limit) × (small_ok edit first.now [] ≡ true) × (few_ok text.now edit payload.now first.now [] ≡ true) × (ordered_ok edit ≡ true) }
    ensures { map followed marks.new ≡ map (carried_mark text.now edit payload.now first.now) (map followed marks.old) }
{
    for mark in marks.iter_mut() {
        *mark = carry_mark(text, edit, payload, first, *mark);
    }
}

// Not `copy_from_slice`: it calls memmove, and the archive calls memcpy and memset alone.
pub fn copy_marks(from: &[Option<Sel>], to: &mut [Option<Sel>])
    requires { length from.now ≡ length to.old }
    ensures { to.new ≡ from.now }
{
    for (i, mark) in from.iter().enumerate() {
        to[i] = *mark;
    }
}

// The marks that `marks` holds, the first `count` of them carried over an edit of this text, in `moved`.
pub fn carry_copy(
    text: &[u32],
    edit: Edit,
    payload: &[u32],
    first: &[u32],
    marks: &[Option<Sel>],
    moved: &mut [Option<Sel>],
    count: usize,
)
    requires { (length text.now ≤ text_limit) × (small_ok edit first.now [] ≡ true) × (few_ok text.now edit payload.now first.now [] ≡ true) × (ordered_ok edit ≡ true) × (count ≤ 64) × (length marks.now ≡ 64) × (length moved.old ≡ 64) }
    ensures { moved.new ≡ marks_over (map (carried_mark text.now edit payload.now first.now) (marks_in count marks.now)) marks.now }
{
    copy_marks(marks, moved);
    carry_marks(text, edit, payload, first, &mut moved[0..count]);
}

// The line of a mark, or 03 alone.
pub fn print_mark(mark: Option<Sel>, out: &mut [u8]) -> usize
    requires { 35 ≤ length out.old }
    ensures { (out.new ≡ over (mark_line (followed mark)) out.old) × (result ≡ length (mark_line (followed mark))) }
{
    match mark {
        Some(sel) => {
            let _ = write_mark(sel, out);
            out[34] = 10;
            35
        }
        None => {
            print_byte(0x03, out);
            3
        }
    }
}
