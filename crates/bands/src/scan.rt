// The canonical sheet of what is seen of a window, as numbers: for each band top, bottom, how many intervals, and the left and
// right side of each. They are numbers in one list, since how many intervals a band has is not known before.
ghost use Rattle.std.specs.Prelude.{◌≡◌, ◌+◌, ◌*◌, ◌≤◌, ◌<◌, length, set};
ghost use Rattle.geom.specs.Geom.{bottom};
ghost use Rattle.geom.specs.Rect16.{Small};
ghost use Rattle.sheet.specs.Sheet.{Apart};
ghost use Rattle.sheet.specs.inner.Numbers.{spans_in};
ghost use Rattle.sheet.specs.inner.Checks.{Decides};
ghost use Rattle.rules.specs.inner.Lent.{AllFit};
ghost use Rattle.bands.specs.inner.Above.{RunRows};
ghost use Rattle.bands.specs.inner.Sort.{Sorted};
ghost use Rattle.bands.specs.inner.Scan.{RowMade, IsRow, Kept, Scanned};

use crate::rects;
use crate::row::row;
use geom::{Rect, inner};

// Are the n intervals at two places the same?
fn same(nums: &[u32], p: usize, q: usize, n: usize) -> bool
    requires { (p + 2 * n ≤ length nums.now) × (q + 2 * n ≤ length nums.now) }
    ensures { Decides result (spans_in nums.now p n ≡ spans_in nums.now q n) }
{
    nums[p..p + 2 * n] == nums[q..q + 2 * n]
}

// Are the k intervals at place e those of row z? They are written behind, to compare the two.
fn is_row(at: Rect, above: &[Rect], z: u32, nums: &mut [u32], e: usize, k: usize) -> bool
    requires above { AllFit above.now × (length above.now ≤ 15) × Small at × Sorted above.now }
    requires apart { Apart 0 (spans_in nums.old e k) × (k ≤ length above.now + 1) × (e + 4 * length above.now + 4 ≤ length nums.old) }
    ensures decides { Decides result (IsRow at above.now z nums.old e k) }
    ensures kept { Kept (e + 2 * k) nums.old nums.new }
{
    row(at, above, z, nums, e + 2 * k) == k && same(nums, e, e + 2 * k, k)
}

// Where the rows from y on end whose intervals are the k of y, at place e. A `while`, since it goes from edge to edge.
fn run_rows(at: Rect, above: &[Rect], y: u32, nums: &mut [u32], e: usize, k: usize) -> u32
    requires above { AllFit above.now × (length above.now ≤ 15) × Small at × Sorted above.now × (y < bottom at) }
    requires row_made { RowMade at above.now y nums.old e k nums.old × (e + 4 * length above.now + 4 ≤ length nums.old) }
    ensures run_rows { RunRows at above.now y result }
    ensures kept { Kept (e + 2 * k) nums.old nums.new }
{
    let limit = inner::bottom(at);
    let mut r = rects::next_row(above, y, limit);
    while r < limit {
        if !is_row(at, above, r, nums, e, k) {
            return r;
        }
        r = rects::next_row(above, r, limit);
    }
    limit
}

// How many bands there are, and how many numbers they take.
#[derive(Clone, Copy)]
pub struct Made {
    pub bands: usize,
    pub end: usize,
}

// Writes the three numbers that stand before a band's intervals.
fn head(nums: &mut [u32], e: usize, top: u32, bottom: u32, k: usize)
    requires { (e + 3 ≤ length nums.old) × (k ≤ 16) }
    ensures { nums.new ≡ set (set (set nums.old e top) (e + 1) bottom) (e + 2) k }
{
    nums[e] = top;
    nums[e + 1] = bottom;
    nums[e + 2] = k as u32;
}

// Writes the numbers of the bands. A `while`, since it goes from band to band.
pub fn scan(at: Rect, above: &[Rect], nums: &mut [u32]) -> Made
    requires above { AllFit above.now × (length above.now ≤ 15) × Small at × Sorted above.now }
    requires nums_len { length nums.old ≡ 1120 }
    ensures { Scanned at above.now result nums.new }
{
    let top = at.pos.y;
    let limit = inner::bottom(at);
    let mut y = top;
    let mut bands: usize = 0;
    let mut end: usize = 0;
    while y < limit {
        let k = row(at, above, y, nums, end + 3);
        let next = run_rows(at, above, y, nums, end + 3, k);
        if k != 0 {
            head(nums, end, y - top, next - top, k);
            end = end + 3 + 2 * k;
            bands += 1;
        }
        y = next;
    }
    Made { bands, end }
}
