// What is still to be drawn: whether a full redraw is owed, and a redraw that goes window by window. Document 02, N7.
#![tactic(auto)]

ghost use Rattle.std.specs.Prelude.{◌≡◌, ◌&&◌, ◌||◌, ◌<◌, leb};
ghost use Rattle.due.specs.inner.Due.{no_walk, settled, owing, begun, further};

use window::ids::Place;

// A redraw that goes through the places of the render order, lowest first: whether one was begun and is neither over
// nor dropped, the place of its next window, and whether it is full. What the other two hold where none is on is not
// looked at. It is no Option, since a session holds it in C's memory.
#[repr(C)]
#[derive(Clone, Copy)]
pub struct Walk {
    pub next: Place,
    pub on: bool,
    pub full: bool,
}

#[repr(C)]
#[derive(Clone, Copy)]
pub struct Due {
    pub walk: Walk,
    pub owed: bool,
}

impl Walk {
    pub fn none() -> Walk
        ensures { result ≡ no_walk }
    {
        Walk {
            next: Place::lowest(),
            on: false,
            full: false,
        }
    }

    // Whether it is on and has no window left, of so many that are shown.
    fn is_over(&self, shown: usize) -> bool
        ensures { result ≡ self.now.on && leb shown self.now.next.0 }
    {
        self.on && shown <= self.next.0
    }
}

impl Due {
    // Whether a full redraw is owed or a walk is on: a repair of a window then owes a full redraw.
    pub fn is_pending(&self) -> bool
        ensures { result ≡ self.now.owed || self.now.walk.on }
    {
        self.owed || self.walk.on
    }

    // A walk with no window left to draw is over, and only then is the debt cleared.
    #[tactic(auto, unfolding(crate::specs::inner::Due::settled))]
    fn settle(&mut self, shown: usize)
        ensures { self.new ≡ settled self.old.owed self.old.walk shown }
    {
        if self.walk.is_over(shown) {
            self.walk = Walk::none();
            self.owed = false;
        }
    }

    // A full redraw is owed, and a walk goes back to the bottom, in full.
    pub fn owe(&mut self, shown: usize)
        ensures { self.new ≡ owing self.old shown }
    {
        self.owed = true;
        self.walk.next = Place::lowest();
        self.walk.full = true;
        self.settle(shown);
    }

    // A walk from the bottom, full if told so or owed, in place of one before it.
    pub fn begin(&mut self, forced: bool, shown: usize)
        ensures { self.new ≡ begun forced self.old shown }
    {
        self.walk = Walk {
            next: Place::lowest(),
            on: true,
            full: forced || self.owed,
        };
        self.settle(shown);
    }

    // The walk goes on above the window that was treated.
    pub fn advance(&mut self, shown: usize)
        requires { self.old.walk.next.0 < 16 }
        ensures { self.new ≡ further self.old shown }
    {
        self.walk.next = self.walk.next.next();
        self.settle(shown);
    }
}
