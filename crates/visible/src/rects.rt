// Two rectangles that meet, and rectangles seen from a window's corner.
ghost use Rattle.std.specs.Prelude.{◌≡◌, ◌≤◌};
ghost use Rattle.geom.specs.Geom.{left, top, meets};
ghost use Rattle.geom.specs.inner.Fits.{Fits};
ghost use Rattle.geom.specs.Lists as rule;

use geom::{Rect, inner};

// Have the two a pixel in common? Side by side, since of many that are apart the first question or the second says so.
pub fn overlap(a: Rect, b: Rect) -> bool
    requires { Fits a × Fits b }
    ensures { result ≡ meets a b }
{
    b.pos.x < inner::right(a)
        && (a.pos.x < inner::right(b)
            && (b.pos.y < inner::bottom(a)
                && (a.pos.y < inner::bottom(b) && (!inner::is_empty(a) && !inner::is_empty(b)))))
}

// The rectangle as seen from the corner of `to`.
pub fn relative(to: Rect, r: Rect) -> Rect
    requires { (left to ≤ left r) × (top to ≤ top r) }
    ensures { result ≡ rule.relative to r }
{
    Rect::new(r.pos.x - to.pos.x, r.pos.y - to.pos.y, r.dims.w, r.dims.h)
}
