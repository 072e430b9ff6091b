// The call redraw: document 01, "Redraw, lowest window first".
ghost use Rattle.std.specs.Prelude.{◌≡◌, cond, ◌||◌, ◌+◌, ◌*◌, ◌≤◌, length};
ghost use Rattle.geom.specs.Refusals.{answer_of};
ghost use Rattle.rules.specs.Redraw.{draw_all, clean_all};
ghost use Rattle.rules.specs.Calls.{Call};
ghost use Rattle.window.specs.Represents.{RepWindow};
ghost use Rattle.rules.specs.inner.Lent.{AllFit};
ghost use Rattle.windows.specs.View.{done, group, window_at, Rep, Given, MeetsScreen};
ghost use Rattle.windows.specs.inner.Drawing.{Drawable, Painting, painted};

use crate::Session;
use crate::inner::frames::rects_from;
use crate::inner::portion::clean;
use geom::Rect;
use geom::inner::lent::{pixels_fit, store_fits};
use geom::refusal::Refusal;
use order::rects::dirty_of;
use visible::draw::draw;
use visible::region::View;
use window::Window;
use window::ids::Place;

// Whether a window is drawn: all are where the redraw is full, else those that are marked.
pub fn is_drawn(w: &Window, full: bool) -> bool
    ensures { result ≡ full || w.now.marked }
{
    full || w.marked
}

// Draws a window under others, as dimming is on or off. Its pixels begin at `base` of the store.
fn paint_window(
    win: &Window,
    base: usize,
    above: &[Rect],
    full: bool,
    dim: bool,
    sw: u32,
    sh: u32,
    store: &[u32],
    screen: &mut [u32],
)
    requires lent { RepWindow win.now × (base + win.now.at.w * win.now.at.h ≤ length store.now) × AllFit above.now × (length above.now ≤ 16) }
    requires sw_bound { (sw ≤ 32767) × (sh ≤ 32767) × (length screen.old ≡ sw * sh) }
    ensures { screen.new ≡ painted dim win.now full base above.now store.now sw sh screen.old }
{
    let dirty = dirty_of(full, &win.damage);
    let view = View {
        at: win.at.rect(),
        base,
        sw,
        sh,
        dim,
    };
    draw(view, above, dirty.as_slice(), store, screen);
}

// The same, if the window is to be drawn. The test stands apart, so that it is compiled into the loop over the windows.
pub fn draw_window(
    win: &Window,
    base: usize,
    above: &[Rect],
    full: bool,
    dim: bool,
    sw: u32,
    sh: u32,
    store: &[u32],
    screen: &mut [u32],
)
    requires lent { RepWindow win.now × (base + win.now.at.w * win.now.at.h ≤ length store.now) × AllFit above.now × (length above.now ≤ 16) }
    requires sw_bound { (sw ≤ 32767) × (sh ≤ 32767) × (length screen.old ≡ sw * sh) }
    ensures { screen.new ≡ cond (full || win.now.marked) (painted dim win.now full base above.now store.now sw sh screen.old) screen.old }
{
    if is_drawn(win, full) {
        paint_window(win, base, above, full, dim, sw, sh, store, screen);
    }
}

// The same of the window of a number in a session.
pub fn draw_at(
    s: &Session,
    at: usize,
    above: &[Rect],
    full: bool,
    sw: u32,
    sh: u32,
    store: &[u32],
    screen: &mut [u32],
)
    requires lent { Painting s.now at above.now store.now }
    requires sw_bound { (sw ≤ 32767) × (sh ≤ 32767) × (length screen.old ≡ sw * sh) }
    ensures { screen.new ≡ cond (full || (window_at s.now at).marked) (painted s.now.shared.dimmed (window_at s.now at) full (at * s.now.shared.c) above.now store.now sw sh screen.old) screen.old }
{
    let base = at * s.shared.c as usize;
    let dim = s.shared.dimmed;
    draw_window(
        &s.windows[at],
        base,
        above,
        full,
        dim,
        sw,
        sh,
        store,
        screen,
    );
}

// Draws every window, lowest first.
fn draw_all(s: &Session, full: bool, sw: u32, sh: u32, store: &[u32], screen: &mut [u32])
    requires { Given s.now × Drawable s.now sw sh store.now screen.old }
    ensures { screen.new ≡ draw_all (group s.now) full store.now sw sh (group s.now).order screen.old }
{
    let n = s.shared.shown;
    let all = rects_from(s, Place::lowest());
    for p in 0..n {
        let at = s.shared.order[p].0 as usize;
        let above = &all.rects[p + 1..n];
        draw_at(s, at, above, full, sw, sh, store, screen);
    }
}

// Marks and damage of the windows that were drawn are cleared.
fn clean_all(s: &mut Session, full: bool)
    requires { Given s.old }
    ensures { (group s.new ≡ clean_all full (group s.old).order (group s.old)) × Rep s.new }
{
    for p in 0..s.shared.shown {
        let at = s.shared.order[p].0 as usize;
        clean(&mut s.windows[at], full);
    }
}

impl Session {
    // Every window is drawn and cleaned, the debt is paid, and a walk is dropped.
    pub fn redraw(
        &mut self,
        forced: bool,
        width: u32,
        height: u32,
        store: &[u32],
        screen: &mut [u32],
    ) -> Result<(), Refusal>
        requires { Given self.old }
        ensures { MeetsScreen (Call.Redraw forced width height store.now screen.old) self.old (done self.new (answer_of result)) screen.new }
    {
        if !store_fits(store.len(), self.shared.c) {
            return Err(Refusal::StoreLength);
        }
        if !pixels_fit(width, height, screen.len()) {
            return Err(Refusal::ScreenSize);
        }
        let full = forced || self.shared.due.owed;
        draw_all(self, full, width, height, store, screen);
        clean_all(self, full);
        self.shared.due.owed = false;
        self.shared.due.walk.on = false;
        Ok(())
    }
}
