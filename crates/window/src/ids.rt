// The number of a window, and its place in the render order.
ghost use Rattle.std.specs.Prelude.{◌≡◌, ◌&&◌, ◌+◌, ◌-◌, ◌<◌, ltb};

// The number of a window, 0 to 15. Any other number is answered by 3.
#[repr(C)]
#[derive(Clone, Copy, Debug, PartialEq, Eq, PartialOrd, Ord)]
pub struct WinId(pub u32);

// Question 3, of an id and whether the window of that number is in use.
pub fn in_use(id: WinId, used: bool) -> bool
    ensures { result ≡ ltb id.0 16 && used }
{
    id.0 < 16 && used
}

// A place in the render order, 0 for the lowest window.
#[repr(C)]
#[derive(Clone, Copy, Debug, PartialEq, Eq, PartialOrd, Ord)]
pub struct Place(pub usize);

impl Place {
    pub fn lowest() -> Place
        ensures { result.0 ≡ 0 }
    {
        Place(0)
    }

    // The place above.
    pub fn next(self) -> Place
        requires { self.0 < 16 }
        ensures { result.0 ≡ self.0 + 1 }
    {
        Place(self.0 + 1)
    }

    // The place below; the lowest has none, and is given back.
    pub fn prev(self) -> Place
        ensures { result.0 ≡ self.0 - 1 }
    {
        Place(self.0.saturating_sub(1))
    }
}
