// How a window stands, and how the session does. Our own addition "How things stand".
ghost use Rattle.std.specs.Prelude.{◌≡◌, true, cond, ◌&&◌, ◌-◌, ◌≤◌, ◌<◌};
ghost use Rattle.rules.specs.State.{window_state, session_state};
ghost use Rattle.windows.specs.View.{group, window_in, window_of, state_of, Given};

use crate::inner::one::slot;
use crate::{Session, SessionState, WindowState};
use due::Walk;
use geom::refusal::Refusal;
use topmost::release::NOBODY;
use window::ids::{WinId, in_use};

// The id, if there is somebody, else `NOBODY`.
fn someone(is: bool, id: WinId) -> WinId
    ensures { result.0 ≡ cond is id.0 16 }
{
    if is { id } else { NOBODY }
}

// Whether a walk is on that goes through every window.
fn is_full(walk: Walk) -> bool
    ensures { result ≡ walk.on && walk.full }
{
    walk.on && walk.full
}

// How many portions are left of a walk, of so many windows that are shown: those from its next one on.
fn portions_left(walk: Walk, shown: usize) -> u32
    requires { (shown ≤ 16) × (walk.on ≡ true → walk.next.0 < shown) }
    ensures { result ≡ cond walk.on (shown - walk.next.0) 0 }
{
    if walk.on {
        return (shown - walk.next.0) as u32;
    }
    0
}

impl Session {
    // How a window stands. A window that is not shown has no place, and 0 is told.
    pub fn window(&self, id: WinId) -> Result<WindowState, Refusal>
        requires { Given self.now }
        ensures { window_in result ≡ window_of (window_state (group self.now) id.0) }
    {
        let at = slot(id);
        let win = &self.windows[at];
        if !in_use(id, win.used) {
            return Err(Refusal::UnknownId);
        }
        let (shown, place) = match self.shared.place_of(id) {
            Some(p) => (true, p.0 as u32),
            None => (false, 0),
        };
        Ok(WindowState {
            rect: win.at.rect(),
            shown,
            place,
            layer: u32::from(self.shared.layers[at]),
            maximised: self.shared.maximised[at],
            marked: win.marked,
            queued: u32::from(win.queue.len),
            moved: win.cursor.is_dirty,
        })
    }

    // How the session stands.
    pub fn state(&self) -> SessionState
        requires { Given self.now }
        ensures { result ≡ state_of (session_state (group self.now)) }
    {
        let shared = &self.shared;
        let walk = shared.due.walk;
        SessionState {
            c: shared.c,
            shown: shared.shown as u32,
            focus: someone(0 < shared.shown, shared.focus),
            grab: someone(shared.grab.0 < 16, shared.grab),
            dimmed: shared.dimmed,
            owed: shared.due.owed,
            walk: walk.on,
            full: is_full(walk),
            left: portions_left(walk, shared.shown),
            displays: u32::from(self.displays.len),
        }
    }
}
