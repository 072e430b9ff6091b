// A session: sixteen windows and what they share. Document 01, "The group". Translated from windows/mod.rs.
//
// A call changes the session where it lies, and its answer is a value or the refusal: the first question of documents 01 and 02 that does not hold.
// A refused call changes nothing. A call that touches one window is a function of that window and of what is shared, in `one` or `store`.
//
//     windows: [Window; 16]      0     1     2     3     4  …  15     by number; a window that is not `used` is free
//     shared: the order          3     0     1     -     -  …   -     the first `shown` places, lowest first: window 1 is on top
//             place              0     1     2                        window 2 is hidden: it is used and has no place
//             the layers         0     1     0     0     0  …   0     by number: window 1 stays above those of layer 0
//             C, the focus, whether dimming is on, the window that took the last MouseDown, whether a full redraw is owed, and the walk of a
//             redraw that goes window by window
//     the lent store             C     C     C     C     C  …   C     window i has the C pixels from i × C on, rows of its own width
//     the lent screen            what a redraw writes, window by window in the order, each under those above it
#![tactic(auto)]

ghost use Rattle.std.specs.Prelude.{◌≡◌, ◌≤◌, take};
ghost use Rattle.order.specs.Ids.{ids};
ghost use Rattle.order.specs.inner.Order.{idx_of, render_idx};

use display::Displays;
use due::Due;
use geom::Rect;
use order::get_render_idx;
use window::Window;
use window::ids::{Place, WinId};

mod calls;
mod hits;
pub mod inner;
mod input;
mod looks;
mod share;
mod sheets;
mod stale_rect;
mod start;
mod state;
mod visible_list;
mod waiting;
mod writes;

// What the windows share: the render order, which holds the shown ones in its first `shown` places, lowest first; C; the
// focus; whether dimming is on; `grab`, the window that took the last MouseDown, while it is remembered, else `NOBODY`;
// what is still to be drawn; and the layer of each window by its number, 0 or 1, which is not looked at where the number
// is not in use.
#[repr(C)]
#[derive(Clone, Copy)]
pub struct Shared {
    pub order: [WinId; 16],
    pub shown: usize,
    pub c: u32,
    pub focus: WinId,
    pub dimmed: bool,
    pub grab: WinId,
    pub due: Due,
    pub layers: [u8; 16],
    pub maximised: [bool; 16],
}

impl Shared {
    // The windows that are shown, lowest first.
    pub(crate) fn in_order(&self) -> &[WinId]
        requires { self.now.shown ≤ 16 }
        ensures { result.now ≡ take self.now.shown self.now.order }
    {
        &self.order[..self.shown]
    }

    // The place of a window in the render order, if it is shown.
    pub(crate) fn place_of(&self, id: WinId) -> Option<Place>
        requires { self.now.shown ≤ 16 }
        ensures { idx_of result ≡ render_idx id.0 (ids self.now.shown self.now.order) }
    {
        get_render_idx(self.in_order(), id)
    }
}

#[repr(C)]
#[derive(Clone, Copy)]
pub struct Session {
    pub windows: [Window; 16],
    pub shared: Shared,
    pub displays: Displays,
}

// Who took an event, and the point that it was given there, (0,0) for keys and Text.
#[derive(Clone, Copy)]
pub struct Taken {
    pub id: WinId,
    pub x: u32,
    pub y: u32,
}

// The share of a window that is in view, as whole percent and what is left over of w × h.
#[derive(Clone, Copy)]
pub struct InView {
    pub percent: u32,
    pub remainder: u32,
}

// How a window stands: where it lies, whether it is shown and at which place of the render order, 0 where it is not, its layer,
// whether it is maximised and marked, how many events are queued, and whether a move is unread.
#[derive(Clone, Copy)]
pub struct WindowState {
    pub rect: Rect,
    pub shown: bool,
    pub place: u32,
    pub layer: u32,
    pub maximised: bool,
    pub marked: bool,
    pub queued: u32,
    pub moved: bool,
}

// How a session stands: C, how many windows are shown, the focus and the window that took the last MouseDown, each
// `NOBODY` where there is none, whether dimming is on, whether a full redraw is owed, whether a walk is on, whether it
// is full and how many portions are left of it, and how many displays there are.
#[repr(C)]
#[derive(Clone, Copy)]
pub struct SessionState {
    pub c: u32,
    pub shown: u32,
    pub focus: WinId,
    pub grab: WinId,
    pub dimmed: bool,
    pub owed: bool,
    pub walk: bool,
    pub full: bool,
    pub left: u32,
    pub displays: u32,
}
