// Sorted selections merged where they share a position.
ghost use Rattle.std.specs.Prelude.{◌≡◌, ◌*◌, ◌≤◌, length};
ghost use Rattle.promise.specs.Slices.{over};
ghost use Rattle.promise.specs.Paper.{done};
ghost use Rattle.sorting.specs.Flat.{flat, sels};
ghost use Rattle.merge.specs.Merging.{merge_two, collapse};
ghost use Rattle.merge.specs.Call.{outcome};

use select::Sel;
use sorting::{put_sel, sel_at};

fn merge_two(a: Sel, b: Sel) -> Sel
    ensures { result ≡ merge_two a b }
{
    let start = a.start().min(b.start());
    let end = a.end().max(b.end());
    Sel::new(start, end)
}

// Merges n selections that are sorted by start, into the front of `out`, and says how many are left.
pub fn collapse(sorted: &[u32], n: usize, out: &mut [u32]) -> usize
    requires { (length sorted.now ≡ 4 * n) × (length sorted.now ≤ length out.old) }
    ensures { outcome (done result) out.new ≡ outcome (done (length (collapse (sels sorted.now)))) (over (flat (collapse (sels sorted.now))) out.old) }
{
    if n == 0 {
        return 0;
    }
    let mut last = sel_at(sorted, 0);
    let mut count = 0;
    for i in 1..n {
        let next = sel_at(sorted, i);
        if last.overlaps(next) {
            last = merge_two(last, next);
        } else {
            put_sel(out, count, last);
            last = next;
            count += 1;
        }
    }
    put_sel(out, count, last);
    count + 1
}
