// The dirty entries of a region, drawn one after the other. Entries that follow each other often overlap, as those that
// a drag leaves do: each is drawn outside the one before it, which is drawn already.
ghost use Rattle.std.specs.Prelude.{◌≡◌, [], ◌∷◌, cond};
ghost use Rattle.geom.specs.Geom.{meets, pieces};
ghost use Rattle.geom.specs.inner.Fits.{Fits, Within};
ghost use Rattle.geom.specs.Lists.{outside, meets_of};
ghost use Rattle.rules.specs.inner.Lent.{AllFit};
ghost use Rattle.visible.specs.inner.Seen.{Drawable, own, drawn};
ghost use Rattle.visible.specs.inner.Outside.{four, hole_of};

use crate::region::{View, draw_region};
use geom::{Rect, inner};

// What a region has in common with a rectangle. If they do not meet, it has no pixel and lies below all of the region.
fn hole(r: Rect, b: Rect) -> Rect
    requires { Fits r × Fits b }
    ensures { result ≡ hole_of r b }
{
    if inner::meets(r, b) {
        return inner::common(r, b);
    }
    Rect::new(r.pos.x, inner::bottom(r), 0, 0)
}

// How many pieces there are around it: four, or the one above, which is the region, if the two do not meet.
fn how_many(r: Rect, b: Rect) -> usize
    requires { Fits r × Fits b }
    ensures { result ≡ cond (meets r b) 4 1 }
{
    if inner::meets(r, b) { 4 } else { 1 }
}

// The pieces of a region around its part i: above, left, right, below. They may have no pixel.
fn four(r: Rect, i: Rect) -> [Rect; 4]
    requires { Fits r × Within r i }
    ensures { result ≡ four r i }
{
    let right = inner::right(i);
    let bottom = inner::bottom(i);
    [
        Rect::new(r.pos.x, r.pos.y, r.dims.w, i.pos.y - r.pos.y),
        Rect::new(r.pos.x, i.pos.y, i.pos.x - r.pos.x, i.dims.h),
        Rect::new(right, i.pos.y, inner::right(r) - right, i.dims.h),
        Rect::new(r.pos.x, bottom, r.dims.w, inner::bottom(r) - bottom),
    ]
}

// Draws the pieces of a region outside a rectangle. By a loop: `draw_region` is long, and is compiled into it once.
fn draw_outside(view: &View, r: Rect, b: Rect, store: &[u32], screen: &mut [u32])
    requires { Drawable view.now store.now screen.old × Within (own view.now) r × Fits b }
    ensures { screen.new ≡ drawn view.now store.now (pieces r b) screen.old }
{
    let pieces = four(r, hole(r, b));
    for piece in &pieces[..how_many(r, b)] {
        draw_region(view, *piece, store, screen);
    }
}

// Draws what a region has in common with a dirty entry, outside the entry before it.
fn draw_common(view: &View, r: Rect, entry: Rect, before: Rect, store: &[u32], screen: &mut [u32])
    requires { Drawable view.now store.now screen.old × Within (own view.now) r × Fits entry × Fits before }
    ensures { screen.new ≡ drawn view.now store.now (outside (meets_of r (entry ∷ [])) before) screen.old }
{
    if inner::meets(r, entry) {
        draw_outside(view, inner::common(r, entry), before, store, screen);
    }
}

// Draws what a region has in common with each of the dirty entries: a pixel of two that follow each other, once.
pub fn draw_dirty(view: &View, r: Rect, dirty: &[Rect], store: &[u32], screen: &mut [u32])
    requires { Drawable view.now store.now screen.old × Within (own view.now) r × AllFit dirty.now }
    ensures { screen.new ≡ drawn view.now store.now (meets_of r dirty.now) screen.old }
{
    let mut before = Rect::new(0, 0, 0, 0);
    for entry in dirty {
        draw_common(view, r, *entry, before, store, screen);
        before = *entry;
    }
}
