// The pieces of a rectangle outside another: document 01, "Pieces of A outside B".
ghost use Rattle.std.specs.Prelude.{[], ◌<◌};
ghost use Rattle.geom.specs.Geom as rule;
ghost use Rattle.geom.specs.inner.Fits.{Fits, Within, Added};
ghost use Rattle.geom.specs.Bare.{Holds};

use crate::{Pieces, Rect, inner};

impl Pieces {
    fn none() -> Pieces
        ensures { Holds result [] }
    {
        Pieces {
            count: 0,
            rects: [Rect::new(0, 0, 0, 0); 4],
        }
    }

    // One more, if it has a pixel.
    fn push(&mut self, r: Rect)
        requires { self.old.count < 4 }
        ensures { Added self.old r self.new }
    {
        if inner::is_empty(r) {
            return;
        }
        self.rects[self.count] = r;
        self.count += 1;
    }
}

// What is left of `a` around its part `i`: above, left, right, below.
fn around(a: Rect, i: Rect) -> Pieces
    requires { Fits a × Within a i }
    ensures { Holds result (rule.around a i) }
{
    let above = Rect::new(a.pos.x, a.pos.y, a.dims.w, i.pos.y - a.pos.y);
    let left = Rect::new(a.pos.x, i.pos.y, i.pos.x - a.pos.x, i.dims.h);
    let r = inner::right(i);
    let right = Rect::new(r, i.pos.y, inner::right(a) - r, i.dims.h);
    let s = inner::bottom(i);
    let below = Rect::new(a.pos.x, s, a.dims.w, inner::bottom(a) - s);
    let mut pieces = Pieces::none();
    pieces.push(above);
    pieces.push(left);
    pieces.push(right);
    pieces.push(below);
    pieces
}

// The pieces of `a` outside `b`; where the two do not meet, `a` itself.
pub fn outside(a: Rect, b: Rect) -> Pieces
    requires { Fits a × Fits b }
    ensures { Holds result (rule.pieces a b) }
{
    if inner::meets(a, b) {
        return around(a, inner::common(a, b));
    }
    let zero = Rect::new(0, 0, 0, 0);
    Pieces {
        count: 1,
        rects: [a, zero, zero, zero],
    }
}
