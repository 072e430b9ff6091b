// The same without question 14, for our own crates: their coordinates are known to fit (`Fits`). That is no invariant of `Rect`, which is a struct
// of the C interface and may hold any numbers.
ghost use Rattle.std.specs.Prelude.{◌≡◌, true, false, ◌≤◌, min, max};
ghost use Rattle.geom.specs.Geom as rule;
ghost use Rattle.geom.specs.Nearest.{nearest_x, nearest_y, apart, distance²};
ghost use Rattle.geom.specs.inner.Fits.{Fits};
ghost use Rattle.geom.specs.Bare.{edges_fit, both_fit};

pub mod lent;
pub mod numbers;
pub mod pieces;
pub mod rect16;
pub mod small;

use crate::{Pos, Rect};

// Question 14 of one rectangle.
pub fn edges_fit(r: Rect) -> bool
    ensures { result ≡ edges_fit r }
{
    r.dims.w <= u32::MAX - r.pos.x && r.dims.h <= u32::MAX - r.pos.y
}

// Question 14 of two rectangles.
pub fn both_fit(a: Rect, b: Rect) -> bool
    ensures { result ≡ both_fit a b }
{
    edges_fit(a) && edges_fit(b)
}

// The first column past the rectangle.
pub fn right(r: Rect) -> u32
    requires { Fits r }
    ensures { result ≡ rule.right r }
{
    r.pos.x + r.dims.w
}

// The first row past the rectangle.
pub fn bottom(r: Rect) -> u32
    requires { Fits r }
    ensures { result ≡ rule.bottom r }
{
    r.pos.y + r.dims.h
}

pub fn is_empty(r: Rect) -> bool
    ensures { result ≡ rule.is_empty r }
{
    r.dims.w == 0 || r.dims.h == 0
}

pub fn contains(r: Rect, x: u32, y: u32) -> bool
    requires { Fits r }
    ensures { result ≡ rule.contains r x y }
{
    // side by side: one expression is compiled without branches, and a press would ask all four of each window it misses
    if x < r.pos.x {
        return false;
    }
    if right(r) <= x {
        return false;
    }
    if y < r.pos.y {
        return false;
    }
    if bottom(r) <= y {
        return false;
    }
    true
}

pub fn contains_rect(a: Rect, b: Rect) -> bool
    requires { Fits a × Fits b }
    ensures { result ≡ rule.contains_rect a b }
{
    contains(a, b.pos.x, b.pos.y) && (is_empty(b) || contains(a, right(b) - 1, bottom(b) - 1))
}

pub fn within(r: Rect, w: u32, h: u32) -> bool
    requires { Fits r }
    ensures { result ≡ rule.within r w h }
{
    r.pos.x < w && (r.pos.y < h && (right(r) <= w && bottom(r) <= h))
}

// The smallest rectangle with both.
pub fn union(a: Rect, b: Rect) -> Rect
    requires { Fits a × Fits b }
    ensures { result ≡ rule.union a b }
{
    let x = a.pos.x.min(b.pos.x);
    let y = a.pos.y.min(b.pos.y);
    let r = right(a).max(right(b));
    let s = bottom(a).max(bottom(b));
    Rect::new(x, y, r - x, s - y)
}

// Have the two a pixel in common?
pub fn meets(a: Rect, b: Rect) -> bool
    requires { Fits a × Fits b }
    ensures { result ≡ rule.meets a b }
{
    a.pos.x.max(b.pos.x) < right(a).min(right(b)) && a.pos.y.max(b.pos.y) < bottom(a).min(bottom(b))
}

// The pixels that both have, of two rectangles that meet.
pub fn common(a: Rect, b: Rect) -> Rect
    requires fits { Fits a × Fits b }
    requires b_value { rule.meets a b ≡ true }
    ensures { result ≡ rule.common a b }
{
    let x = a.pos.x.max(b.pos.x);
    let y = a.pos.y.max(b.pos.y);
    let r = right(a).min(right(b));
    let s = bottom(a).min(bottom(b));
    Rect::new(x, y, r - x, s - y)
}

// The pixel of the rectangle that is nearest to the position.
pub fn clamp_pos(r: Rect, pos: Pos) -> Pos
    requires fits { Fits r }
    requires r_value { rule.is_empty r ≡ false }
    ensures { (result.x ≡ nearest_x r pos.x) × (result.y ≡ nearest_y r pos.y) }
{
    let x = r.pos.x.max(pos.x.min(right(r) - 1));
    let y = r.pos.y.max(pos.y.min(bottom(r) - 1));
    Pos::new(x, y)
}

// The square of the distance between two positions in a straight line. Twice the square of a difference of 31 bits is a number of 64 bits.
pub fn dist_sq(a: Pos, b: Pos) -> u64
    requires { (apart a.x b.x ≤ 2147483647) × (apart a.y b.y ≤ 2147483647) }
    ensures { result ≡ distance² a.x a.y b.x b.y }
{
    let dx = a.x.abs_diff(b.x) as u64;
    let dy = a.y.abs_diff(b.y) as u64;
    dx * dx + dy * dy
}
