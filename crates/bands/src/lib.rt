// The sheet of what is seen of a window under others: document 02, N6.
#![tactic(auto)]

ghost use Rattle.std.specs.Prelude.{◌≤◌, length};
ghost use Rattle.geom.specs.Rect16.{Small};
ghost use Rattle.geom.specs.Refusals.{listing_of};
ghost use Rattle.sheet.specs.inner.Writer.{Writes};
ghost use Rattle.rules.specs.inner.Lent.{AllFit};
ghost use Rattle.bands.specs.inner.Scan.{seen_under};

pub mod rects;
pub mod row;
pub mod scan;

use geom::Rect;
use geom::refusal::Refusal;

// Writes the sheet of a window at `at` under the rectangles above it, relative to the window: its bands are found as numbers
// first, at most 31 of them with three numbers and two for each of 16 intervals, then written as bits.
pub fn write(at: Rect, above: &[Rect], out: &mut [u8]) -> Result<usize, Refusal>
    requires { AllFit above.now × (length above.now ≤ 15) × Small at }
    ensures { Writes (seen_under at above.now) out.old (listing_of result) out.new }
{
    let mut table = [Rect::new(0, 0, 0, 0); 15];
    let sorted = &mut table[..above.len()];
    rects::sort(above, sorted);
    let mut nums = [0u32; 1120];
    let made = scan::scan(at, sorted, &mut nums);
    sheet::inner::write::write(&nums[..made.end], made.bands, out)
}
