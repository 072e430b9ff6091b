// The smallest rectangle that holds what is seen of a window where it is dirty, inside an area of the screen.
ghost use Rattle.std.specs.Prelude.{◌≡◌, false, ◌&&◌, [], ◌∷◌, map, ◌≤◌, length};
ghost use Rattle.geom.specs.Geom.{rect, is_empty, contains};
ghost use Rattle.geom.specs.inner.Fits.{Fits};
ghost use Rattle.geom.specs.Lists.{outside_all, relative, list_intersect, any_has};
ghost use Rattle.geom.specs.Rect16.{Small};
ghost use Rattle.rules.specs.Redraw.{onto};
ghost use Rattle.rules.specs.inner.Lent.{AllFit};
ghost use Rattle.visible.specs.inner.Extents.{nothing, Joins};
ghost use Rattle.visible.specs.inner.Visits.{CanJoin, JoinsPart};

use crate::reach::reach;
use crate::walk::{Visitor, visit_seen};
use geom::{Rect, inner};

// The sides of the smallest rectangle that holds some pixels: its left column and top row, and the column and the row
// past it. Of no pixel the sides are turned round, so that the first one that joins gives all four.
#[repr(C)]
#[derive(Clone, Copy)]
pub struct Extents {
    pub left: u32,
    pub top: u32,
    pub right: u32,
    pub bottom: u32,
}

impl Extents {
    pub fn none() -> Extents
        ensures { result ≡ nothing }
    {
        Extents {
            left: 4294967295,
            top: 4294967295,
            right: 0,
            bottom: 0,
        }
    }

    // Joins what the rectangles leave of a part of the screen.
    fn join_part(&mut self, part: Rect, above: &[Rect])
        requires { Fits part × AllFit above.now × (length above.now ≤ 16) }
        ensures { Joins (any_has (outside_all (part ∷ []) above.now)) self.old self.new }
    {
        if !inner::is_empty(part) {
            visit_seen(part, above, self);
        }
    }

    // Joins what is seen of a window at `at`, under the rectangles above it, where it is dirty, in an area of the screen.
    pub fn join(&mut self, at: Rect, above: &[Rect], dirty: &[Rect], area: Rect)
        requires { Small at × Small area × AllFit above.now × (length above.now ≤ 16) × AllFit dirty.now }
        ensures { Joins (λ px py. contains area px py && any_has (map (onto at) (list_intersect (map (relative at) (outside_all (at ∷ []) above.now)) dirty.now)) px py) self.old self.new }
    {
        for entry in dirty {
            self.join_part(reach(at, *entry, area), above);
        }
    }
}

// A part that lies inside already adds nothing and is not searched.
impl Visitor for Extents {
    ghost Can = { CanJoin };

    ghost Step = { JoinsPart };

    fn is_done(&self, x: u32, y: u32, w: u32, h: u32) -> bool {
        self.left <= x && (x + w <= self.right && (self.top <= y && y + h <= self.bottom))
    }

    fn visit(&mut self, x: u32, y: u32, w: u32, h: u32) {
        self.left = self.left.min(x);
        self.top = self.top.min(y);
        self.right = self.right.max(x + w);
        self.bottom = self.bottom.max(y + h);
    }
}
