// Steps carried out in a lent buffer: every piece that stays is moved once.
#![tactic(auto)]

ghost use mathlib.Core.Path.{◌≡◌};
ghost use mathlib.Core.List.{◌++◌};
ghost use Prim.Native.Nat.{◌+◌, ◌-◌, ◌*◌, ◌≤◌, min, max};
ghost use lib.ListN.{length, take, drop, replicate};
ghost use lib.Seq.{paste};
ghost use Rattle.text.specs.Text.{renewed};
ghost use Rattle.steps.specs.Steps.{woven};
ghost use Rattle.steps.specs.Numbers.{steps_of, passed_by, come_by, size_by, woven_from};

// Moves the `count` places from `from` on to `to`.
fn move_piece(text: &mut [u32], from: usize, to: usize, count: usize)
    requires { (from + count ≤ length text.old) × (to + count ≤ length text.old) }
    ensures { text.new ≡ paste text.old to (drop from text.old) count }
{
    if from != to {
        text.copy_within(from..from + count, to);
    }
}

// Puts `value` so many times, and then the payload, over what stands from `at` on.
fn lay(text: &mut [u32], at: usize, pad: usize, value: u32, payload: &[u32])
    requires { at + (pad + length payload.now) ≤ length text.old }
    ensures { text.new ≡ paste text.old at (replicate pad value ++ payload.now) (pad + length payload.now) }
{
    let after = at + pad;
    text[at..after].fill(value);
    text[after..after + payload.len()].copy_from_slice(payload);
}

// Weaves what stands from `from` up to `used`, to the places from `to` on. A piece that goes down is moved before those behind it,
// and one that goes up after them, so none is written over before it is moved.
fn weave(
    text: &mut [u32],
    used: usize,
    from: usize,
    to: usize,
    steps: &[u32],
    n: usize,
    value: u32,
    payload: &[u32],
)
    requires { (5 * n ≤ length steps.now) × (come_by n steps.now ≤ length payload.now) × (from + passed_by n steps.now ≤ used) × (used ≤ length text.old) × (to + size_by n steps.now from used ≤ length text.old) × (n ≤ 256) }
    ensures front { take (min from to) text.new ≡ take (min from to) text.old }
    ensures woven { take (size_by n steps.now from used) (drop to text.new) ≡ woven_from value text.old used from n steps.now payload.now }
    ensures behind { drop (max used (to + size_by n steps.now from used)) text.new ≡ drop (max used (to + size_by n steps.now from used)) text.old }
{
    if n == 0 {
        move_piece(text, from, to, used - from);
        return;
    }
    let keep = steps[0] as usize;
    let gone = steps[1] as usize;
    let pad = steps[2] as usize;
    let come = steps[3] as usize;
    let next = from + keep + gone;
    let place = to + keep;
    let after = place + pad + come;
    let rest = &steps[5..];
    let coming = &payload[0..come];
    let later = &payload[come..];
    let left = n - 1;
    if to <= from {
        move_piece(text, from, to, keep);
        weave(text, used, next, after, rest, left, value, later);
        lay(text, place, pad, value, coming);
    } else {
        weave(text, used, next, after, rest, left, value, later);
        move_piece(text, from, to, keep);
        lay(text, place, pad, value, coming);
    }
}

// The text woven by n steps, where the edit makes `value`, and what it gives up cleared.
pub fn commit(
    text: &mut [u32],
    used: usize,
    steps: &[u32],
    n: usize,
    value: u32,
    payload: &[u32],
    size: usize,
)
    requires { (5 * n ≤ length steps.now) × (come_by n steps.now ≤ length payload.now) × (passed_by n steps.now ≤ used) × (used ≤ length text.old) × (size ≡ size_by n steps.now 0 used) × (size ≤ length text.old) × (n ≤ 256) }
    ensures { text.new ≡ renewed text.old used (woven value (steps_of n steps.now payload.now) (take used text.old)) }
{
    weave(text, used, 0, 0, steps, n, value, payload);
    if size < used {
        text[size..used].fill(0);
    }
}
