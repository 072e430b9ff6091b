// Question 5: is every number given at most 32,767?
ghost use Rattle.std.specs.Prelude.{◌≡◌, ◌&&◌};
ghost use Rattle.geom.specs.Questions.{small};
ghost use Rattle.geom.specs.Geom.{small_rect};

use crate::{Dims, Rect};

// The greatest coordinate or size.
pub const MOST: u32 = 32767;

// Of a point.
pub fn small_point(x: u32, y: u32) -> bool
    ensures { result ≡ small x && small y }
{
    x <= MOST && y <= MOST
}

// Of a size.
pub fn is_small_size(d: Dims) -> bool
    ensures { result ≡ small d.w && small d.h }
{
    d.w <= MOST && d.h <= MOST
}

// Of a rectangle by its numbers.
pub fn small_area(x: u32, y: u32, w: u32, h: u32) -> bool
    ensures { result ≡ small x && small y && (small w && small h) }
{
    x <= MOST && (y <= MOST && (w <= MOST && h <= MOST))
}

// Of a rectangle.
pub fn is_small(r: Rect) -> bool
    ensures { result ≡ small_rect r }
{
    small_area(r.pos.x, r.pos.y, r.dims.w, r.dims.h)
}
