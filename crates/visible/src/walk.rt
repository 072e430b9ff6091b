// What the rectangles above a window leave of it, visited part by part.
//
// No list of parts is stored: each part goes through the rectangles by itself, depth first, which gives the same list in the
// same order. Rectangles that do not meet the part are passed over; the first that meets it splits it, and each piece that has
// a pixel goes on by itself with the rectangles behind. A part is passed as four numbers and not as a rectangle, which would
// go through memory at each call.
ghost use Rattle.std.specs.Prelude.{◌≡◌, true, false, [], ◌∷◌, ◌<◌, ◌≤◌, length};
ghost use Rattle.std.specs.List.{FoldsTo};
ghost use Rattle.geom.specs.declared.Rect.{Rect};
ghost use Rattle.geom.specs.Geom.{rect, is_empty, meets};
ghost use Rattle.geom.specs.inner.Fits.{Fits, Within};
ghost use Rattle.geom.specs.Lists.{outside_all};
ghost use Rattle.rules.specs.inner.Lent.{AllFit};
ghost use Rattle.visible.specs.inner.Walk.{AllSolid, FirstMet, Walkable};

use crate::table::gather;
use geom::{Rect, inner};

// Something that is done with one part after the other.
pub trait Visitor {
    // whether a part can be visited, and what a visit changes
    ghost Can: { Self → Rect → Type 0 };

    ghost Step: { Self → Rect → Self → Type 0 };

    // Would no part that lies in (x,y,w,h) change anything?
    fn is_done(&self, x: u32, y: u32, w: u32, h: u32) -> bool
        requires { Fits (rect x y w h) }
        ensures { result ≡ true → (r : Rect) → Within (rect x y w h) r → Step self.now r self.now };

    fn visit(&mut self, x: u32, y: u32, w: u32, h: u32)
        requires { Can self.old (rect x y w h) }
        ensures { Step self.old (rect x y w h) self.new };
}

// Have (x,y,w,h) and the rectangle a pixel in common? Both have pixels.
fn meets(x: u32, y: u32, w: u32, h: u32, r: Rect) -> bool
    requires part { Fits (rect x y w h) × (is_empty (rect x y w h) ≡ false) }
    requires other { Fits r × (is_empty r ≡ false) }
    ensures { result ≡ meets (rect x y w h) r }
{
    r.pos.x < x + w && (x < inner::right(r) && (r.pos.y < y + h && y < inner::bottom(r)))
}

// The place of the first rectangle that meets (x,y,w,h).
fn first_met(x: u32, y: u32, w: u32, h: u32, rects: &[Rect]) -> Option<usize>
    requires part { Fits (rect x y w h) × (0 < length rects.now → is_empty (rect x y w h) ≡ false) }
    requires rects { AllSolid rects.now }
    ensures { FirstMet (rect x y w h) rects.now result }
{
    for (k, r) in rects.iter().enumerate() {
        if meets(x, y, w, h, *r) {
            return Some(k);
        }
    }
    None
}

// Visits what the rectangles leave of (x,y,w,h).
fn walk<V: Visitor>(x: u32, y: u32, w: u32, h: u32, rects: &[Rect], visitor: &mut V)
    requires part { Fits (rect x y w h) × (0 < length rects.now → is_empty (rect x y w h) ≡ false) }
    requires rects { AllSolid rects.now }
    requires walkable { Walkable V.Can V.Step visitor.old (outside_all (rect x y w h ∷ []) rects.now) }
    ensures { FoldsTo V.Step visitor.old (outside_all (rect x y w h ∷ []) rects.now) visitor.new }
{
    if visitor.is_done(x, y, w, h) {
        return;
    }
    let Some(k) = first_met(x, y, w, h, rects) else {
        visitor.visit(x, y, w, h);
        return;
    };
    let met = rects[k];
    let rest = &rects[k + 1..];
    let right = x + w;
    let bottom = y + h;
    let l = x.max(met.pos.x);
    let u = y.max(met.pos.y);
    let r = right.min(inner::right(met));
    let b = bottom.min(inner::bottom(met));
    if y < u {
        walk(x, y, w, u - y, rest, visitor);
    }
    if x < l {
        walk(x, u, l - x, b - u, rest, visitor);
    }
    if r < right {
        walk(r, u, right - r, b - u, rest, visitor);
    }
    if b < bottom {
        walk(x, b, w, bottom - b, rest, visitor);
    }
}

// Visits what the rectangles above it leave of a part of a window. Where none of them meets the part, it is visited here: what
// a visit calls is then called from two places, and is not compiled into the walk, of which each turn would hold its memory.
pub fn visit_seen<V: Visitor>(part: Rect, above: &[Rect], visitor: &mut V)
    requires part { Fits part × AllFit above.now × (length above.now ≤ 16) }
    requires walkable { Walkable V.Can V.Step visitor.old (outside_all (part ∷ []) above.now) }
    ensures { FoldsTo V.Step visitor.old (outside_all (part ∷ []) above.now) visitor.new }
{
    let x = part.pos.x;
    let y = part.pos.y;
    let w = part.dims.w;
    let h = part.dims.h;
    if visitor.is_done(x, y, w, h) {
        return;
    }
    let mut table = [Rect::new(0, 0, 0, 0); 16];
    let met = gather(part, above, &mut table);
    if met == 0 {
        visitor.visit(x, y, w, h);
        return;
    }
    walk(x, y, w, h, &table[..met], visitor);
}
