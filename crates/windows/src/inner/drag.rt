// A drag: our own addition "Drag". The window goes elsewhere, it is repaired, and so are the lower windows in what they have in common with
// the rectangle before the drag.
ghost use Rattle.std.specs.Prelude.{◌≡◌};
ghost use Rattle.geom.specs.Refusals.{answer_of};
ghost use Rattle.geom.specs.Rect16.{Small, rect_of};
ghost use Rattle.window.specs.Represents.{RepWindow, win_of};
ghost use Rattle.rules.specs.Calls.{Call};
ghost use Rattle.rules.specs.Drag.{uncovered_all};
ghost use Rattle.order.specs.Ids.{ids};
ghost use Rattle.windows.specs.View.{done, group, Given, Meets, Rep};
ghost use Rattle.windows.specs.inner.Pixels.{Becomes};
ghost use Rattle.windows.specs.inner.Drag.{uncovered_win, Uncoverable};

use crate::Session;
use crate::inner::one::{repair, slot};
use crate::inner::store::damage;
use geom::inner::rect16::Rect16;
use geom::inner::small::small_point;
use geom::inner::{common, meets};
use geom::refusal::Refusal;
use geom::{Pos, Rect};
use window::Window;
use window::ids::{Place, WinId, in_use};

// A lower window: marked, and what it has in common with the rectangle added to its damage, from its own corner.
fn uncover(win: &mut Window, old: Rect16)
    requires { RepWindow win.old × Small (rect_of old) }
    ensures { Becomes win.old (uncovered_win (rect_of old) (win_of win.old)) win.new }
{
    let own = win.at.rect();
    let was = old.rect();
    if !meets(own, was) {
        return;
    }
    let part = common(own, was);
    let area = Rect::new(
        part.pos.x - own.pos.x,
        part.pos.y - own.pos.y,
        part.dims.w,
        part.dims.h,
    );
    damage(win, area);
    win.marked = true;
}

// The windows below a place, one after the other.
fn uncover_below(s: &mut Session, p: Place, old: Rect16)
    requires { Uncoverable s.old p.0 × Small (rect_of old) }
    ensures { (group s.new ≡ uncovered_all (rect_of old) (ids p.0 s.old.shared.order) (group s.old)) × Rep s.new }
{
    for i in 0..p.0 {
        let lower = s.shared.order[i];
        uncover(&mut s.windows[lower.0 as usize], old);
    }
}

impl Session {
    // The window goes elsewhere; it is drawn again, and what it uncovered of those below, not everything. A hidden window owes nothing, and where a
    // repair owes a full redraw the drag is a move.
    pub fn drag(&mut self, id: WinId, pos: Pos) -> Result<(), Refusal>
        requires { Given self.old }
        ensures { Meets (Call.Drag id.0 pos.x pos.y) self.old (done self.new (answer_of result)) }
    {
        let at = slot(id);
        if !in_use(id, self.windows[at].used) {
            return Err(Refusal::UnknownId);
        }
        if !small_point(pos.x, pos.y) {
            return Err(Refusal::TooLarge);
        }
        let win = &mut self.windows[at];
        let old = win.at;
        win.at.x = pos.x as u16;
        win.at.y = pos.y as u16;
        self.shared.maximised[at] = false;
        let Some(p) = self.shared.place_of(id) else {
            return Ok(());
        };
        if self.shared.due.is_pending() {
            self.shared.owe();
            return Ok(());
        }
        repair(win);
        uncover_below(self, p, old);
        Ok(())
    }
}
