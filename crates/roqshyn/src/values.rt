// What C gets of the calls of a session beside their answers. Where a call was refused each number is 0, and each
// rectangle (0,0,0,0); only an id is then 4,294,967,295, which is no window's.
ghost use Rattle.std.specs.Prelude.{◌≡◌, false};
ghost use Rattle.geom.specs.Geom.{rect};

use crate::answers::code;
use display::Located;
use geom::Rect;
use geom::refusal::Refusal;
use window::ids::WinId;
use windows::{InView, WindowState};

pub const NO_ID: WinId = WinId(4294967295);

// What a refused call has in place of a rectangle.
pub fn no_rect() -> Rect
    ensures { result ≡ rect 0 0 0 0 }
{
    Rect::new(0, 0, 0, 0)
}

#[repr(C)]
#[derive(Clone, Copy)]
pub struct RoqCreated {
    pub answer: u32,
    pub id: WinId,
}

impl From<Result<WinId, Refusal>> for RoqCreated {
    ghost use Rattle.geom.specs.Refusals.{answer_of};
    ghost use Rattle.rules.specs.Group.{id_or};
    ghost use Rattle.windows.specs.View.{id_of};

    ghost from_gives = { λ created r. (r.answer ≡ answer_of created) × (r.id.0 ≡ id_or 4294967295 (id_of created)) };

    fn from(created: Result<WinId, Refusal>) -> RoqCreated {
        RoqCreated {
            answer: code(created),
            id: created.unwrap_or(NO_ID),
        }
    }
}

// A display: the one that the position is on, where `on` is true, else the closest one.
#[repr(C)]
#[derive(Clone, Copy)]
pub struct RoqDisplay {
    pub answer: u32,
    pub on: bool,
    pub rect: Rect,
}

impl From<Result<Located, Refusal>> for RoqDisplay {
    ghost use Rattle.display.specs.Represents.{located_of};
    ghost use Rattle.windows.specs.View.{for_pos};
    ghost use Rattle.roqshyn.specs.Answers.{display_of};

    ghost from_gives = { λ found r. r ≡ display_of (for_pos found).answer (located_of (for_pos found).located) };

    fn from(found: Result<Located, Refusal>) -> RoqDisplay {
        let answer = code(found);
        match found.unwrap_or(Located::Closest(no_rect())) {
            Located::On(rect) => RoqDisplay {
                answer,
                on: true,
                rect,
            },
            Located::Closest(rect) => RoqDisplay {
                answer,
                on: false,
                rect,
            },
        }
    }
}

// The share of a window that is in view, as whole percent and what is left over of w × h.
#[repr(C)]
#[derive(Clone, Copy)]
pub struct RoqShare {
    pub answer: u32,
    pub percent: u32,
    pub remainder: u32,
}

impl From<Result<InView, Refusal>> for RoqShare {
    ghost use Rattle.windows.specs.View.{in_view};
    ghost use Rattle.roqshyn.specs.Answers.{as_share};

    ghost from_gives = { λ share r. as_share r ≡ in_view share };

    fn from(share: Result<InView, Refusal>) -> RoqShare {
        let InView { percent, remainder } = share.unwrap_or(InView {
            percent: 0,
            remainder: 0,
        });
        RoqShare {
            answer: code(share),
            percent,
            remainder,
        }
    }
}

// The position and size of a window.
#[repr(C)]
#[derive(Clone, Copy)]
pub struct RoqPlaced {
    pub answer: u32,
    pub rect: Rect,
}

impl From<Result<Rect, Refusal>> for RoqPlaced {
    ghost use Rattle.windows.specs.View.{placed_of};
    ghost use Rattle.roqshyn.specs.Answers.{as_placed};

    ghost from_gives = { λ found r. as_placed r ≡ placed_of found };

    fn from(found: Result<Rect, Refusal>) -> RoqPlaced {
        RoqPlaced {
            answer: code(found),
            rect: found.unwrap_or(no_rect()),
        }
    }
}

// Where a call would write: the smallest rectangle, if one is due.
#[repr(C)]
#[derive(Clone, Copy)]
pub struct RoqStale {
    pub answer: u32,
    pub due: bool,
    pub rect: Rect,
}

impl From<Result<Option<Rect>, Refusal>> for RoqStale {
    ghost use Rattle.windows.specs.View.{stale_in};
    ghost use Rattle.roqshyn.specs.Answers.{as_stale};

    ghost from_gives = { λ stale r. as_stale r ≡ stale_in stale };

    fn from(stale: Result<Option<Rect>, Refusal>) -> RoqStale {
        let rect = stale.unwrap_or(None);
        RoqStale {
            answer: code(stale),
            due: rect.is_some(),
            rect: rect.unwrap_or(no_rect()),
        }
    }
}

// How a window stands.
#[repr(C)]
#[derive(Clone, Copy)]
pub struct RoqWindow {
    pub answer: u32,
    pub rect: Rect,
    pub shown: bool,
    pub place: u32,
    pub layer: u32,
    pub maximised: bool,
    pub marked: bool,
    pub queued: u32,
    pub moved: bool,
}

fn no_window() -> WindowState
    ensures { result ≡ record { rect = rect 0 0 0 0; shown = false; place = 0; layer = 0; maximised = false; marked = false; queued = 0; moved = false } }
{
    WindowState {
        rect: no_rect(),
        shown: false,
        place: 0,
        layer: 0,
        maximised: false,
        marked: false,
        queued: 0,
        moved: false,
    }
}

impl From<Result<WindowState, Refusal>> for RoqWindow {
    ghost use Rattle.windows.specs.View.{window_in};
    ghost use Rattle.roqshyn.specs.Answers.{as_window};

    ghost from_gives = { λ found r. as_window r ≡ window_in found };

    fn from(found: Result<WindowState, Refusal>) -> RoqWindow {
        let w = found.unwrap_or(no_window());
        RoqWindow {
            answer: code(found),
            rect: w.rect,
            shown: w.shown,
            place: w.place,
            layer: w.layer,
            maximised: w.maximised,
            marked: w.marked,
            queued: w.queued,
            moved: w.moved,
        }
    }
}
