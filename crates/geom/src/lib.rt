// Rectangles: document 01, "Rectangles". Translated from geom.rs, with its names.
//
// The calls here take any numbers and ask question 14. `inner` has the same without that question, for our own crates, whose coordinates are
// known to fit.
#![tactic(auto)]

ghost use Rattle.std.specs.Prelude.{◌≡◌};
ghost use Rattle.geom.specs.Geom.{rect};
ghost use Rattle.geom.specs.Bare.{met, tested_of, united_of, not_intersect_of, bare_contains, bare_contains_rect, bare_within, bare_intersect, bare_union, BareNotIntersect};

use crate::refusal::Refusal;

pub mod inner;
pub mod refusal;

#[repr(C)]
#[derive(Clone, Copy, Debug, PartialEq, Eq)]
pub struct Pos {
    pub x: u32,
    pub y: u32,
}

#[repr(C)]
#[derive(Clone, Copy, Debug, PartialEq, Eq)]
pub struct Dims {
    pub w: u32,
    pub h: u32,
}

#[repr(C)]
#[derive(Clone, Copy, Debug, PartialEq, Eq)]
pub struct Rect {
    pub pos: Pos,
    pub dims: Dims,
}

// Up to four rectangles; the places from `count` on hold (0,0,0,0). No list grows here: the C interface has this struct.
#[repr(C)]
#[derive(Clone, Copy)]
pub struct Pieces {
    pub count: usize,
    pub rects: [Rect; 4],
}

impl Pos {
    pub fn new(x: u32, y: u32) -> Pos
        ensures { (result.x ≡ x) × (result.y ≡ y) }
    {
        Pos { x, y }
    }
}

impl Dims {
    pub fn new(w: u32, h: u32) -> Dims
        ensures { (result.w ≡ w) × (result.h ≡ h) }
    {
        Dims { w, h }
    }

    pub fn width(self) -> u32
        ensures { result ≡ self.w }
    {
        self.w
    }

    pub fn height(self) -> u32
        ensures { result ≡ self.h }
    {
        self.h
    }
}

impl Rect {
    // Every pixel: from (0,0) on, as wide and as high as a number of 32 bits can say.
    pub const FULL: Rect = Rect {
        pos: Pos { x: 0, y: 0 },
        dims: Dims {
            w: u32::MAX,
            h: u32::MAX,
        },
    };

    pub fn new(x: u32, y: u32, w: u32, h: u32) -> Rect
        ensures { result ≡ rect x y w h }
    {
        Rect {
            pos: Pos { x, y },
            dims: Dims { w, h },
        }
    }

    pub fn new_pd(pos: Pos, dims: Dims) -> Rect
        ensures { (result.pos ≡ pos) × (result.dims ≡ dims) }
    {
        Rect { pos, dims }
    }

    pub fn pos(self) -> Pos
        ensures { result ≡ self.pos }
    {
        self.pos
    }

    pub fn dims(self) -> Dims
        ensures { result ≡ self.dims }
    {
        self.dims
    }

    pub fn x(self) -> u32
        ensures { result ≡ self.pos.x }
    {
        self.pos.x
    }

    pub fn y(self) -> u32
        ensures { result ≡ self.pos.y }
    {
        self.pos.y
    }

    pub fn w(self) -> u32
        ensures { result ≡ self.dims.w }
    {
        self.dims.w
    }

    pub fn h(self) -> u32
        ensures { result ≡ self.dims.h }
    {
        self.dims.h
    }

    pub fn left(self) -> u32
        ensures { result ≡ self.pos.x }
    {
        self.pos.x
    }

    pub fn top(self) -> u32
        ensures { result ≡ self.pos.y }
    {
        self.pos.y
    }

    // Is the pixel one of this rectangle's?
    pub fn contains(self, pt: Pos) -> Result<bool, Refusal>
        ensures { tested_of result ≡ bare_contains self pt.x pt.y }
    {
        if !inner::edges_fit(self) {
            return Err(Refusal::EdgeTooLarge);
        }
        Ok(inner::contains(self, pt.x, pt.y))
    }

    // Is the other rectangle in this one?
    pub fn contains_rect(self, r: Rect) -> Result<bool, Refusal>
        ensures { tested_of result ≡ bare_contains_rect self r }
    {
        if !inner::both_fit(self, r) {
            return Err(Refusal::EdgeTooLarge);
        }
        Ok(inner::contains_rect(self, r))
    }

    // Is this rectangle in (0,0,w,h)?
    pub fn within(self, w: u32, h: u32) -> Result<bool, Refusal>
        ensures { tested_of result ≡ bare_within self w h }
    {
        if !inner::edges_fit(self) {
            return Err(Refusal::EdgeTooLarge);
        }
        Ok(inner::within(self, w, h))
    }

    // The pixels that both have, if there are any.
    pub fn intersect(self, other: Rect) -> Result<Option<Rect>, Refusal>
        ensures { met result ≡ bare_intersect self other }
    {
        if !inner::both_fit(self, other) {
            return Err(Refusal::EdgeTooLarge);
        }
        if !inner::meets(self, other) {
            return Ok(None);
        }
        Ok(Some(inner::common(self, other)))
    }

    // The smallest rectangle with both.
    pub fn union(self, other: Rect) -> Result<Rect, Refusal>
        ensures { united_of result ≡ bare_union self other }
    {
        if !inner::both_fit(self, other) {
            return Err(Refusal::EdgeTooLarge);
        }
        Ok(inner::union(self, other))
    }

    // The pieces of this rectangle outside the other.
    pub fn not_intersect(self, other: Rect) -> Result<Pieces, Refusal>
        ensures { BareNotIntersect self other (not_intersect_of result) }
    {
        if !inner::both_fit(self, other) {
            return Err(Refusal::EdgeTooLarge);
        }
        Ok(inner::pieces::outside(self, other))
    }
}
