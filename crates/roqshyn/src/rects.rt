// The bare calls on rectangles.
ghost use Rattle.std.specs.Prelude.{◌≡◌};
ghost use Rattle.geom.specs.Bare.{bare_contains, bare_contains_rect, bare_within, bare_intersect, bare_union, BareNotIntersect};
ghost use Rattle.roqshyn.specs.Rects.{as_tested, as_united, as_not_intersect, common};

use crate::answers::code;
use crate::values::no_rect;
use geom::refusal::Refusal;
use geom::{Pieces, Pos, Rect};

// Whether it is so: false where the call was refused.
#[repr(C)]
#[derive(Clone, Copy)]
pub struct RoqTested {
    pub answer: u32,
    pub yes: bool,
}

impl From<Result<bool, Refusal>> for RoqTested {
    ghost use Rattle.geom.specs.Bare.{tested_of};
    ghost use Rattle.roqshyn.specs.Rects.{as_tested};

    ghost from_gives = { λ tested r. as_tested r ≡ tested_of tested };

    fn from(tested: Result<bool, Refusal>) -> RoqTested {
        RoqTested {
            answer: code(tested),
            yes: tested.unwrap_or(false),
        }
    }
}

// An intersection as numbers: `meets` is false and `rect` (0,0,0,0) where there is none.
#[repr(C)]
#[derive(Clone, Copy)]
pub struct RoqIntersection {
    pub answer: u32,
    pub meets: bool,
    pub rect: Rect,
}

impl From<Result<Option<Rect>, Refusal>> for RoqIntersection {
    ghost use Rattle.geom.specs.Bare.{met};
    ghost use Rattle.roqshyn.specs.Rects.{common};

    ghost from_gives = { λ found r. r ≡ common (met found) };

    fn from(found: Result<Option<Rect>, Refusal>) -> RoqIntersection {
        let answer = code(found);
        let common = found.unwrap_or(None);
        RoqIntersection {
            answer,
            meets: common.is_some(),
            rect: common.unwrap_or(no_rect()),
        }
    }
}

// The rectangle: (0,0,0,0) where the call was refused.
#[repr(C)]
#[derive(Clone, Copy)]
pub struct RoqUnited {
    pub answer: u32,
    pub rect: Rect,
}

impl From<Result<Rect, Refusal>> for RoqUnited {
    ghost use Rattle.geom.specs.Bare.{united_of};
    ghost use Rattle.roqshyn.specs.Rects.{as_united};

    ghost from_gives = { λ united r. as_united r ≡ united_of united };

    fn from(united: Result<Rect, Refusal>) -> RoqUnited {
        RoqUnited {
            answer: code(united),
            rect: united.unwrap_or(no_rect()),
        }
    }
}

// The pieces: none where the call was refused.
#[repr(C)]
#[derive(Clone, Copy)]
pub struct RoqNotIntersect {
    pub answer: u32,
    pub pieces: Pieces,
}

impl From<Result<Pieces, Refusal>> for RoqNotIntersect {
    ghost use Rattle.geom.specs.Bare.{not_intersect_of};
    ghost use Rattle.roqshyn.specs.Rects.{as_not_intersect};

    ghost from_gives = { λ found r. as_not_intersect r ≡ not_intersect_of found };

    fn from(found: Result<Pieces, Refusal>) -> RoqNotIntersect {
        let none = Pieces {
            count: 0,
            rects: [no_rect(); 4],
        };
        RoqNotIntersect {
            answer: code(found),
            pieces: found.unwrap_or(none),
        }
    }
}

#[unsafe(no_mangle)]
pub extern "C" fn roq_contains(r: Rect, pt: Pos) -> RoqTested
    ensures { as_tested result ≡ bare_contains r pt.x pt.y }
{
    r.contains(pt).into()
}

#[unsafe(no_mangle)]
pub extern "C" fn roq_contains_rect(a: Rect, b: Rect) -> RoqTested
    ensures { as_tested result ≡ bare_contains_rect a b }
{
    a.contains_rect(b).into()
}

#[unsafe(no_mangle)]
pub extern "C" fn roq_within(r: Rect, w: u32, h: u32) -> RoqTested
    ensures { as_tested result ≡ bare_within r w h }
{
    r.within(w, h).into()
}

#[unsafe(no_mangle)]
pub extern "C" fn roq_intersect(a: Rect, b: Rect) -> RoqIntersection
    ensures { result ≡ common (bare_intersect a b) }
{
    a.intersect(b).into()
}

#[unsafe(no_mangle)]
pub extern "C" fn roq_union(a: Rect, b: Rect) -> RoqUnited
    ensures { as_united result ≡ bare_union a b }
{
    a.union(b).into()
}

// The pieces of `a` outside `b`.
#[unsafe(no_mangle)]
pub extern "C" fn roq_not_intersect(a: Rect, b: Rect) -> RoqNotIntersect
    ensures { BareNotIntersect a b (as_not_intersect result) }
{
    a.not_intersect(b).into()
}
