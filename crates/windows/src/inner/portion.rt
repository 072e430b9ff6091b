// A redraw one window at a time: document 02, N7. The walk goes through the render order, lowest window first; a call that owes a full redraw
// sends it back to the bottom, in full.
ghost use Rattle.std.specs.Prelude.{◌≡◌};
ghost use Rattle.geom.specs.Refusals.{answer_of};
ghost use Rattle.rules.specs.Calls.{Call};
ghost use Rattle.windows.specs.View.{done, Given, MeetsScreen};
ghost use Rattle.windows.specs.inner.One.{MeetsShared};
ghost use Rattle.windows.specs.inner.Sharing.{indebted, cleaned_if};

use crate::inner::frames::rects_from;
use crate::inner::redraw::{draw_at, is_drawn};
use crate::{Session, Shared};
use geom::inner::lent::{pixels_fit, store_fits};
use geom::refusal::Refusal;
use window::Window;

impl Shared {
    // A full redraw is owed, and a walk goes back to the bottom, in full.
    pub fn owe(&mut self)
        ensures { self.new ≡ indebted self.old }
    {
        self.due.owe(self.shown);
    }
}

// A walk from the bottom, full if told so or owed, in place of one before it.
pub fn begin(shared: &mut Shared, forced: bool)
    ensures { MeetsShared (Call.Begin forced) shared.old shared.new }
{
    shared.due.begin(forced, shared.shown);
}

// A window that was drawn if the walk is full or it was marked: mark and damage are cleared then.
pub fn clean(win: &mut Window, full: bool)
    ensures { win.new ≡ cleaned_if full win.old }
{
    if is_drawn(win, full) {
        win.marked = false;
        win.damage.len = 0;
    }
}

impl Session {
    // A portion: the next window is drawn as a redraw draws it, and the walk goes on above it.
    pub fn portion(
        &mut self,
        width: u32,
        height: u32,
        store: &[u32],
        screen: &mut [u32],
    ) -> Result<(), Refusal>
        requires { Given self.old }
        ensures { MeetsScreen (Call.Portion width height store.now screen.old) self.old (done self.new (answer_of result)) screen.new }
    {
        if !store_fits(store.len(), self.shared.c) {
            return Err(Refusal::StoreLength);
        }
        if !pixels_fit(width, height, screen.len()) {
            return Err(Refusal::ScreenSize);
        }
        let walk = self.shared.due.walk;
        if !walk.on {
            return Err(Refusal::NoWalk);
        }
        let at = self.shared.order[walk.next.0].0 as usize;
        let above = rects_from(self, walk.next.next());
        draw_at(
            self,
            at,
            above.as_slice(),
            walk.full,
            width,
            height,
            store,
            screen,
        );
        clean(&mut self.windows[at], walk.full);
        self.shared.due.advance(self.shared.shown);
        Ok(())
    }
}
