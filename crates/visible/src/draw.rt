// The parts of a window that are seen, drawn as they are found.
ghost use Rattle.std.specs.Prelude.{◌≡◌, [], ◌∷◌, map, ◌≤◌, length};
ghost use Rattle.geom.specs.Lists.{outside_all, relative, list_intersect};
ghost use Rattle.rules.specs.Redraw.{draw_regions};
ghost use Rattle.rules.specs.inner.Lent.{AllFit};
ghost use Rattle.visible.specs.inner.Seen.{Drawable, Bounds};
ghost use Rattle.visible.specs.inner.Visits.{CanDraw, Draws};

use crate::dirty::draw_dirty;
use crate::reach::reach;
use crate::rects::relative;
use crate::region::View;
use crate::walk::{Visitor, visit_seen};
use geom::{Rect, inner};

// Parts of a window that no higher window covers, drawn where they are dirty.
#[derive(Drop)]
pub struct Drawing<'a> {
    pub view: View,
    pub dirty: &'a [Rect],
    pub store: &'a [u32],
    pub screen: &'a mut [u32],
}

impl Visitor for Drawing<'_> {
    ghost Can = { CanDraw };

    ghost Step = { Draws };

    fn is_done(&self, _x: u32, _y: u32, _w: u32, _h: u32) -> bool {
        false
    }

    fn visit(&mut self, x: u32, y: u32, w: u32, h: u32) {
        let r = relative(self.view.at, Rect::new(x, y, w, h));
        draw_dirty(&self.view, r, self.dirty, self.store, self.screen);
    }
}

// What holds all entries: the one that there is, or everything where there are several.
fn bound(dirty: &[Rect]) -> Rect
    requires { AllFit dirty.now }
    ensures { Bounds result dirty.now }
{
    if dirty.len() == 1 {
        dirty[0]
    } else {
        Rect::FULL
    }
}

// Draws what is seen of a window under the rectangles above it, where it is dirty. Higher windows that do not meet what can be
// drawn are not looked at.
pub fn draw(view: View, above: &[Rect], dirty: &[Rect], store: &[u32], screen: &mut [u32])
    requires drawable { Drawable view store.now screen.old }
    requires lent { AllFit above.now × (length above.now ≤ 16) × AllFit dirty.now }
    ensures { screen.new ≡ draw_regions view.dim view.at view.base store.now view.sw view.sh (list_intersect (map (relative view.at) (outside_all (view.at ∷ []) above.now)) dirty.now) screen.old }
{
    let part = reach(view.at, bound(dirty), Rect::new(0, 0, view.sw, view.sh));
    if inner::is_empty(part) {
        return;
    }
    let mut drawing = Drawing {
        view,
        dirty,
        store,
        screen,
    };
    visit_seen(part, above, &mut drawing);
}
