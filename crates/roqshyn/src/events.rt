// An event as numbers, the two ways between it and `Event`, and what C gets of a route and a pop.
ghost use Rattle.std.specs.Prelude.{◌≡◌};
ghost use Rattle.geom.specs.Refusals.{answer_of};
ghost use Rattle.windows.specs.View.{Given, done, taker_in};
ghost use Rattle.roqshyn.specs.Events.{event_of};
ghost use Rattle.roqshyn.specs.inner.Reaches.{Reaches};

use crate::answers::code;
use crate::values::NO_ID;
use geom::refusal::Refusal;
use window::Event;
use window::ids::WinId;
use windows::{Session, Taken};

// What an event carries, by its kind; a field that the kind does not have is 0. C's kinds are numbers: those of the
// nine events are below, and 0 is no event.
#[repr(C)]
#[derive(Clone, Copy)]
pub struct RoqEvent {
    pub x: u32,
    pub y: u32,
    pub value: u32,
    pub dx: i16,
    pub dy: i16,
    pub kind: u8,
    pub button: u8,
    pub count: u8,
}

const RESIZE: u8 = 1;

const KEY_DOWN: u8 = 2;

const KEY_UP: u8 = 3;

const KEY_FIRE: u8 = 4;

const TEXT: u8 = 5;

const MOUSE_MOVE: u8 = 6;

const MOUSE_DOWN: u8 = 7;

const MOUSE_CLICK: u8 = 8;

const MOUSE_UP: u8 = 9;

const NO_EVENT: RoqEvent = RoqEvent {
    x: 0,
    y: 0,
    value: 0,
    dx: 0,
    dy: 0,
    kind: 0,
    button: 0,
    count: 0,
};

// The event that numbers stand for. Where the kind is none of the nine, no window is there to take it: 11.
impl TryFrom<RoqEvent> for Event {
    type Error = Refusal;

    ghost use Rattle.std.specs.Prelude.{MatchResult};
    ghost use Rattle.std.proofs.Math.Option.{some, none};
    ghost use Rattle.geom.specs.declared.refusal.Refusal.TheVariants.{NoWindow};
    ghost use Rattle.roqshyn.specs.Events.{event_of};

    ghost try_from_gives = { λ numbers r. MatchResult r (λ e. event_of numbers ≡ some e) (λ refusal. (refusal ≡ NoWindow) × (event_of numbers ≡ none)) };

    #[tactic(auto, unfolding(crate::specs::Events::event_of))]
    fn try_from(numbers: RoqEvent) -> Result<Event, Refusal> {
        let RoqEvent {
            x,
            y,
            value,
            dx,
            dy,
            kind,
            button,
            count,
        } = numbers;
        match kind {
            RESIZE => Ok(Event::Resize),
            KEY_DOWN => Ok(Event::KeyDown(value)),
            KEY_UP => Ok(Event::KeyUp(value)),
            KEY_FIRE => Ok(Event::KeyFire(value)),
            TEXT => Ok(Event::Text(value)),
            MOUSE_MOVE => Ok(Event::MouseMove { x, y, dx, dy }),
            MOUSE_DOWN => Ok(Event::MouseDown { x, y, button }),
            MOUSE_CLICK => Ok(Event::MouseClick {
                x,
                y,
                button,
                count,
            }),
            MOUSE_UP => Ok(Event::MouseUp { x, y, button }),
            _ => Err(Refusal::NoWindow),
        }
    }
}

impl From<Event> for RoqEvent {
    ghost use Rattle.std.proofs.Math.Option.{some};
    ghost use Rattle.roqshyn.specs.Events.{numbers_of};

    ghost from_gives = { λ e numbers. numbers ≡ numbers_of (some e) };

    #[tactic(auto, unfolding(crate::specs::Events::numbers_of))]
    fn from(e: Event) -> RoqEvent {
        match e {
            Event::Resize => RoqEvent {
                kind: RESIZE,
                ..NO_EVENT
            },
            Event::KeyDown(value) => RoqEvent {
                kind: KEY_DOWN,
                value,
                ..NO_EVENT
            },
            Event::KeyUp(value) => RoqEvent {
                kind: KEY_UP,
                value,
                ..NO_EVENT
            },
            Event::KeyFire(value) => RoqEvent {
                kind: KEY_FIRE,
                value,
                ..NO_EVENT
            },
            Event::Text(value) => RoqEvent {
                kind: TEXT,
                value,
                ..NO_EVENT
            },
            Event::MouseMove { x, y, dx, dy } => RoqEvent {
                kind: MOUSE_MOVE,
                x,
                y,
                dx,
                dy,
                ..NO_EVENT
            },
            Event::MouseDown { x, y, button } => RoqEvent {
                kind: MOUSE_DOWN,
                x,
                y,
                button,
                ..NO_EVENT
            },
            Event::MouseClick {
                x,
                y,
                button,
                count,
            } => RoqEvent {
                kind: MOUSE_CLICK,
                x,
                y,
                button,
                count,
                ..NO_EVENT
            },
            Event::MouseUp { x, y, button } => RoqEvent {
                kind: MOUSE_UP,
                x,
                y,
                button,
                ..NO_EVENT
            },
        }
    }
}

// The answer and the event, whose numbers are all 0 where the call was refused.
#[repr(C)]
#[derive(Clone, Copy)]
pub struct RoqPopped {
    pub answer: u32,
    pub event: RoqEvent,
}

impl From<Result<Event, Refusal>> for RoqPopped {
    ghost use Rattle.std.specs.Prelude.{MatchResult};
    ghost use Rattle.std.proofs.Math.Option.{some, none};
    ghost use Rattle.geom.specs.Refusals.{answer_of};
    ghost use Rattle.roqshyn.specs.Events.{numbers_of};

    ghost from_gives = { λ popped r. (r.answer ≡ answer_of popped) × MatchResult popped (λ e. r.event ≡ numbers_of (some e)) (λ _. r.event ≡ numbers_of none) };

    #[tactic(auto, unfolding(crate::specs::Events::numbers_of))]
    fn from(popped: Result<Event, Refusal>) -> RoqPopped {
        RoqPopped {
            answer: code(popped),
            event: popped.map_or(NO_EVENT, RoqEvent::from),
        }
    }
}

// The answer, the window that took the event, and the point that it was given there. Nobody is 4,294,967,295, at (0,0).
#[repr(C)]
#[derive(Clone, Copy)]
pub struct RoqRouted {
    pub answer: u32,
    pub id: WinId,
    pub x: u32,
    pub y: u32,
}

impl From<Result<Option<Taken>, Refusal>> for RoqRouted {
    ghost use Rattle.geom.specs.Refusals.{answer_of};
    ghost use Rattle.windows.specs.View.{taker_in};
    ghost use Rattle.roqshyn.specs.Answers.{routed_as};

    ghost from_gives = { λ routed r. r ≡ routed_as (answer_of routed) (taker_in routed) };

    fn from(routed: Result<Option<Taken>, Refusal>) -> RoqRouted {
        let answer = code(routed);
        match routed {
            Ok(Some(Taken { id, x, y })) => RoqRouted { answer, id, x, y },
            _ => RoqRouted {
                answer,
                id: NO_ID,
                x: 0,
                y: 0,
            },
        }
    }
}

// Routes the event that numbers stand for.
pub fn route_to(s: &mut Session, e: RoqEvent) -> Result<Option<Taken>, Refusal>
    requires { Given s.old }
    ensures { Reaches (event_of e) s.old (done s.new (answer_of result)) (taker_in result) }
{
    let event = Event::try_from(e)?;
    s.route_to(event)
}
