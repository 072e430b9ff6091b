// The queue of 16 events: first in first out, and a newcomer is dropped where 16 wait.
ghost use Rattle.std.specs.Prelude.{◌≡◌, [], ◌≤◌, ◌<◌, MatchOption};
ghost use Rattle.window.specs.Represents.{RepQueue, events, place};
ghost use Rattle.window.specs.inner.Changes.{Queued, PushedTo, PoppedFrom};

use crate::Event;
use crate::slots::{Slot, slot_of};

// The events that wait, oldest first: the `len` slots from `head` on, round the end. C owns the session that holds it,
// so it is an array with two numbers.
#[repr(C)]
#[derive(Clone, Copy)]
pub struct Queue {
    pub slots: [Slot; 16],
    pub head: u8,
    pub len: u8,
}

impl Queue {
    pub fn new() -> Queue
        ensures { (events result ≡ []) × RepQueue result }
    {
        Queue {
            slots: [slot_of(Event::Resize); 16],
            head: 0,
            len: 0,
        }
    }

    pub fn push(&mut self, e: Event)
        requires { RepQueue self.old × Queued e }
        ensures { PushedTo self.old e self.new }
    {
        if self.len < 16 {
            let at = place(self.head, self.len);
            self.slots[at] = slot_of(e);
            self.len += 1;
        }
    }

    // The oldest event; none of an empty queue, which stays as it was.
    pub fn pop(&mut self) -> Option<Event>
        requires { RepQueue self.old }
        ensures { MatchOption result ((self.old.len ≡ 0) × (self.new ≡ self.old)) (λ e. PoppedFrom self.old (record { queue = self.new; event = e })) }
    {
        if self.len == 0 {
            return None;
        }
        let first = self.slots[self.head as usize];
        self.head = place(self.head, 1) as u8;
        self.len -= 1;
        Some(Event::from(first))
    }
}

// The place that the next event takes; behind one event alone, the front once that is popped.
#[tactic(auto, unfolding(crate::specs::Represents::place))]
fn place(head: u8, len: u8) -> usize
    requires { (head < 16) × (len ≤ 16) }
    ensures { (result ≡ place head len) × (result < 16) }
{
    (head as usize + len as usize) % 16
}
