// What of a window lies in a dirty entry and in an area of the screen.
ghost use Rattle.geom.specs.inner.Fits.{Fits};
ghost use Rattle.geom.specs.Rect16.{Small};
ghost use Rattle.visible.specs.inner.Seen.{Reach};

use geom::{Rect, inner};

// What of the window at `at` lies in an entry, which is relative to it, and in an area of the screen; a rectangle
// without pixels where nothing does.
pub fn reach(at: Rect, entry: Rect, area: Rect) -> Rect
    requires { Small at × Fits entry × Small area }
    ensures { Reach at entry area result }
{
    let own = Rect::new(0, 0, at.dims.w, at.dims.h);
    if inner::meets(own, entry) {
        let r = inner::common(own, entry);
        let on = Rect::new(at.pos.x + r.pos.x, at.pos.y + r.pos.y, r.dims.w, r.dims.h);
        if inner::meets(on, area) {
            return inner::common(on, area);
        }
    }
    Rect::new(at.pos.x, at.pos.y, 0, 0)
}
