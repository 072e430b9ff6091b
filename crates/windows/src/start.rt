// The calls that start a session and make a window, and what a station may ask of a session.
ghost use Rattle.std.specs.Prelude.{◌≡◌, not, position};
ghost use Rattle.rules.specs.Group.{allowed_c, fresh};
ghost use Rattle.rules.specs.Calls.{Call};
ghost use Rattle.geom.specs.Refusals.{answer_of};
ghost use Rattle.windows.specs.View.{Rep, Given, MeetsId, Starts, Locates, group, placed, placed_of, for_pos, created, done};

use crate::inner::one;
use crate::inner::one::slot;
use crate::{Session, Shared};
use display::{Displays, Located};
use due::{Due, Walk};
use geom::inner::small::small_point;
use geom::refusal::Refusal;
use geom::{Pos, Rect};
use topmost::release::NOBODY;
use window::Window;
use window::ids::{WinId, in_use};

// Question 2.
fn allowed_c(c: u32) -> bool
    ensures { result ≡ allowed_c c }
{
    1 <= c && c <= 1048576
}

// The smallest unused id.
fn first_free(windows: &[Window; 16]) -> Option<usize>
    ensures { result ≡ position (λ w. not w.used) windows.now }
{
    windows.iter().position(|w| !w.used)
}

impl Session {
    // A session with no window, for any C.
    fn fresh(c: u32) -> Session
        ensures { (group result ≡ fresh c) × Rep result }
    {
        let windows = [Window::unused(); 16];
        let order = [WinId(0); 16];
        let due = Due {
            walk: Walk::none(),
            owed: true,
        };
        let shared = Shared {
            order,
            shown: 0,
            c,
            focus: WinId(0),
            dimmed: false,
            grab: NOBODY,
            due,
            layers: [0; 16],
            maximised: [false; 16],
        };
        let displays = Displays::none();
        Session {
            windows,
            shared,
            displays,
        }
    }

    // A refused start also gives a session, a fresh one with C = 1.
    pub fn start(c: u32) -> (Session, Result<(), Refusal>)
        ensures { Starts c (done result.0 (answer_of result.1)) }
    {
        if !allowed_c(c) {
            return (Session::fresh(1), Err(Refusal::Capacity));
        }
        (Session::fresh(c), Ok(()))
    }

    // A window that is not shown and has no pixels, with the smallest unused id.
    pub fn create(&mut self) -> Result<WinId, Refusal>
        requires { Given self.old }
        ensures { MeetsId Call.Create self.old (created self.new result) }
    {
        let Some(at) = first_free(&self.windows) else {
            return Err(Refusal::NoFreeId);
        };
        one::renew(&mut self.windows[at]);
        self.shared.layers[at] = 0;
        self.shared.maximised[at] = false;
        Ok(WinId(at as u32))
    }

    // The window that has the focus; with none shown it is 0.
    #[tactic(auto, unfolding(crate::specs::View::group))]
    pub fn focus(&self) -> WinId
        ensures { result.0 ≡ (group self.now).focus }
    {
        self.shared.focus
    }

    // Where a window is and how large.
    pub fn rect_of(&self, id: WinId) -> Result<Rect, Refusal>
        requires { Given self.now }
        ensures { placed_of result ≡ placed (group self.now) id.0 }
    {
        let win = &self.windows[slot(id)];
        if !in_use(id, win.used) {
            return Err(Refusal::UnknownId);
        }
        Ok(win.at.rect())
    }

    pub fn get_display_for_pos(&self, pos: Pos) -> Result<Located, Refusal>
        requires { Given self.now }
        ensures { Locates (group self.now) pos.x pos.y (for_pos result) }
    {
        if !small_point(pos.x, pos.y) {
            return Err(Refusal::TooLarge);
        }
        Ok(self.displays.get_display_for_pos(pos))
    }
}
