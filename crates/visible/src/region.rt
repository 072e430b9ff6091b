// One region of a window, copied from the store to the screen.
ghost use Rattle.std.specs.Prelude.{◌≡◌};
ghost use Rattle.geom.specs.inner.Fits.{Within};
ghost use Rattle.rules.specs.Redraw.{draw_region};
ghost use Rattle.visible.specs.inner.Seen.{Drawable, own};

use geom::{Rect, inner};
use paint::area::draw_area;

// What stays the same while a window is drawn: its place, where its pixels begin in the store, the size of the screen, and whether dimming is on.
#[derive(Clone, Copy)]
pub struct View {
    pub at: Rect,
    pub base: usize,
    pub sw: u32,
    pub sh: u32,
    pub dim: bool,
}

// Draws a region, relative to the window; what lies off the screen is cut away first.
pub fn draw_region(view: &View, r: Rect, store: &[u32], screen: &mut [u32])
    requires { Drawable view.now store.now screen.old × Within (own view.now) r }
    ensures { screen.new ≡ draw_region view.now.dim view.now.at view.now.base store.now view.now.sw view.now.sh r screen.old }
{
    let at = view.at;
    let on = Rect::new(at.pos.x + r.pos.x, at.pos.y + r.pos.y, r.dims.w, r.dims.h);
    let all = Rect::new(0, 0, view.sw, view.sh);
    if inner::meets(on, all) {
        let k = inner::common(on, all);
        draw_area(
            screen,
            view.sw as usize,
            k.pos.x as usize,
            k.pos.y as usize,
            store,
            view.base,
            at.dims.w as usize,
            (k.pos.x - at.pos.x) as usize,
            (k.pos.y - at.pos.y) as usize,
            k.dims.w as u16,
            k.dims.h as usize,
            view.dim,
        );
    }
}
