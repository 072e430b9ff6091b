// The intervals of one row, by one pass over rectangles that are sorted by their left sides.
ghost use Rattle.std.specs.Prelude.{◌≡◌, ◌+◌, ◌*◌, ◌≤◌, length, set};
ghost use Rattle.geom.specs.Geom.{contains};
ghost use Rattle.geom.specs.Geom as geom;
ghost use Rattle.geom.specs.inner.Fits.{Fits};
ghost use Rattle.geom.specs.Rect16.{Small};
ghost use Rattle.rules.specs.inner.Lent.{AllFit};
ghost use Rattle.bands.specs.inner.Sort.{Sorted};
ghost use Rattle.bands.specs.inner.Scan.{RowMade};

use geom::{Pos, Rect, inner};

// Writes an interval.
fn span(nums: &mut [u32], place: usize, left: u32, right: u32)
    requires { place + 2 ≤ length nums.old }
    ensures { nums.new ≡ set (set nums.old place left) (place + 1) right }
{
    nums[place] = left;
    nums[place + 1] = right;
}

// Has the rectangle a column, and row y?
fn has_row(r: Rect, y: u32) -> bool
    requires { Fits r }
    ensures { result ≡ contains r (geom.left r) y }
{
    r.contains(Pos::new(r.pos.x, y)).unwrap_or(false)
}

// Writes the intervals of row y that are seen, from place e of the numbers on; returns how many. The columns before x are done. Those
// from x up to the next left side are in no rectangle: the ones passed end at x or before, and the others begin further right. One
// that has no column or not the row is passed over: it would part an interval in two that touch.
pub fn row(at: Rect, above: &[Rect], y: u32, nums: &mut [u32], e: usize) -> usize
    requires above { AllFit above.now × (length above.now ≤ 15) × Small at × Sorted above.now }
    requires room { e + 2 * length above.now + 2 ≤ length nums.old }
    ensures { RowMade at above.now y nums.old e result nums.new }
{
    let left = at.pos.x;
    let limit = inner::right(at);
    let mut x = left;
    let mut k: usize = 0;
    for r in above {
        if has_row(*r, y) {
            let stop = r.pos.x.min(limit);
            if x < stop {
                span(nums, e + 2 * k, x - left, stop - left);
                k += 1;
            }
            x = x.max(inner::right(*r));
        }
    }
    if x < limit {
        span(nums, e + 2 * k, x - left, limit - left);
        k += 1;
    }
    k
}
