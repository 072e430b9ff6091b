// An event in a queue: `slot_of` (specs/inner/Changes.antt) and `event_of` (specs/Represents.antt) in code.
ghost use Rattle.std.specs.Prelude.{◌≡◌, ◌≤◌};
ghost use Rattle.window.specs.Represents.{event_of};
ghost use Rattle.window.specs.inner.Changes.{Queued, slot, slot_of};

use crate::Event;

// The kinds of events that are queued, as the byte of a slot says them; every other number is a Resize. They are no
// enum: it would need these numbers once more, in a match that reads a byte back.
const RESIZE: u8 = 0;

const KEY_DOWN: u8 = 1;

const KEY_UP: u8 = 2;

const TEXT: u8 = 3;

const MOUSE_DOWN: u8 = 4;

const MOUSE_CLICK: u8 = 5;

const MOUSE_UP: u8 = 6;

// An event as plain numbers. C owns the session that holds the queue, and no byte that C may write is a wrong value of
// these: so a slot holds no enum, and its kind is a number.
#[repr(C)]
#[derive(Clone, Copy)]
pub struct Slot {
    pub value: u32,
    pub x: u16,
    pub y: u16,
    pub kind: u8,
    pub button: u8,
    pub count: u8,
}

// A slot without a point.
fn plain(kind: u8, value: u32) -> Slot
    ensures { result ≡ slot kind value 0 0 0 0 }
{
    Slot {
        value,
        x: 0,
        y: 0,
        kind,
        button: 0,
        count: 0,
    }
}

fn press(kind: u8, x: u32, y: u32, button: u8, count: u8) -> Slot
    requires { (x ≤ 32767) × (y ≤ 32767) }
    ensures { result ≡ slot kind 0 x y button count }
{
    Slot {
        value: 0,
        x: x as u16,
        y: y as u16,
        kind,
        button,
        count,
    }
}

// This is no `From`, which takes every event: a slot has no room for a point beyond 32,767. A move and a KeyFire are
// never queued, so their slots are never read.
#[tactic(auto, unfolding(crate::specs::inner::Changes::slot_of))]
pub fn slot_of(e: Event) -> Slot
    requires { Queued e }
    ensures { result ≡ slot_of e }
{
    match e {
        Event::KeyDown(v) => plain(KEY_DOWN, v),
        Event::KeyUp(v) => plain(KEY_UP, v),
        Event::Text(v) => plain(TEXT, v),
        Event::MouseDown { x, y, button } => press(MOUSE_DOWN, x, y, button, 0),
        Event::MouseClick {
            x,
            y,
            button,
            count,
        } => press(MOUSE_CLICK, x, y, button, count),
        Event::MouseUp { x, y, button } => press(MOUSE_UP, x, y, button, 0),
        Event::Resize | Event::KeyFire(_) | Event::MouseMove { .. } => plain(RESIZE, 0),
    }
}

#[tactic(auto, unfolding(crate::specs::Represents::event_of))]
impl From<Slot> for Event {
    ghost from_gives = { λ s e. e ≡ event_of s };

    fn from(s: Slot) -> Event {
        let x = u32::from(s.x);
        let y = u32::from(s.y);
        match s.kind {
            KEY_DOWN => Event::KeyDown(s.value),
            KEY_UP => Event::KeyUp(s.value),
            TEXT => Event::Text(s.value),
            MOUSE_DOWN => Event::MouseDown {
                x,
                y,
                button: s.button,
            },
            MOUSE_CLICK => Event::MouseClick {
                x,
                y,
                button: s.button,
                count: s.count,
            },
            MOUSE_UP => Event::MouseUp {
                x,
                y,
                button: s.button,
            },
            _ => Event::Resize,
        }
    }
}
