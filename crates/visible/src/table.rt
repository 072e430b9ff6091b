// The rectangles above a window that meet a part of it: one that does not covers nothing of it and is left out.
ghost use Rattle.std.specs.Prelude.{◌≡◌, ◌≤◌, length, take, filter};
ghost use Rattle.geom.specs.Geom.{meets};
ghost use Rattle.geom.specs.inner.Fits.{Fits};
ghost use Rattle.rules.specs.inner.Lent.{AllFit};

use crate::rects::overlap;
use geom::Rect;

// Copies those that meet the part to the front of the table; returns how many they are.
pub fn gather(part: Rect, above: &[Rect], table: &mut [Rect; 16]) -> usize
    requires { Fits part × AllFit above.now × (length above.now ≤ 16) × (length table.old ≡ 16) }
    ensures few { (result ≤ 16) × (length table.new ≡ 16) }
    ensures met { take result table.new ≡ filter (λ r. meets part r) above.now }
{
    let mut k: usize = 0;
    for r in above {
        if overlap(part, *r) {
            table[k] = *r;
            k += 1;
        }
    }
    k
}
