// One window: its place, its damage, its queue of events and its cursor. Translated from window.rs and, for
// `CursorPos`, mod.rs.
//
// The functions here are called by our own crates. Each `requires` is part of what a session keeps of its windows
// (specs/Represents.antt).
#![tactic(auto)]

ghost use Rattle.std.specs.Prelude.{◌≡◌, false};
ghost use Rattle.window.specs.Window.{new_win};
ghost use Rattle.window.specs.Represents.{win_of, RepWindow};

use damage::Damage;
use geom::inner::rect16::Rect16;
use queue::Queue;

pub mod cursor;
pub mod damage;
pub mod ids;
pub mod queue;
pub mod slots;

// What a window is told. A point is relative to the window.
#[derive(Clone, Copy)]
pub enum Event {
    Resize,
    KeyDown(u32),
    KeyUp(u32),
    KeyFire(u32),
    Text(u32),
    MouseMove {
        x: u32,
        y: u32,
        dx: i16,
        dy: i16,
    },
    MouseDown {
        x: u32,
        y: u32,
        button: u8,
    },
    MouseClick {
        x: u32,
        y: u32,
        button: u8,
        count: u8,
    },
    MouseUp {
        x: u32,
        y: u32,
        button: u8,
    },
}

// The last point popped, the newest point, and whether that is still to be popped. A point is at most 32,767 each way.
// The newest point is no Option, since C owns the session that holds it.
#[repr(C)]
#[derive(Clone, Copy)]
pub struct CursorPos {
    pub old_x: u16,
    pub old_y: u16,
    pub new_x: u16,
    pub new_y: u16,
    pub is_dirty: bool,
}

// One of a session's 16 windows. The widest parts stand first, so that nothing is lost between them: 348 bytes.
#[repr(C)]
#[derive(Clone, Copy)]
pub struct Window {
    pub queue: Queue,
    pub damage: Damage,
    pub at: Rect16,
    pub cursor: CursorPos,
    pub used: bool,
    pub marked: bool,
}

impl Window {
    // The window of an id that is not in use: at (0,0), of no size, unmarked, with no damage and no events, its cursor
    // at (0,0).
    pub fn unused() -> Window
        ensures { (result.used ≡ false) × (win_of result ≡ new_win) × RepWindow result }
    {
        Window {
            queue: Queue::new(),
            damage: Damage::none(),
            at: Rect16::new(0, 0, 0, 0),
            cursor: CursorPos::new(),
            used: false,
            marked: false,
        }
    }
}
