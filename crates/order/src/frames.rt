// Where the windows are by their numbers, and which numbers are in use.
ghost use Rattle.order.specs.inner.Frames.{FirstFree, FirstFreeIn};

use geom::inner::rect16::Rect16;

// Two arrays and no array of pairs: the areas alone are lent to the searches for a window.
#[derive(Clone, Copy)]
pub struct Frames {
    pub areas: [Rect16; 16],
    pub used: [bool; 16],
}

// The smallest number that is not in use, if there is one.
pub fn free_number(used: &[bool; 16]) -> Option<usize>
    ensures { FirstFreeIn used.now result }
{
    used.iter().position(|u| !*u)
}

// The same, or 0 where all are.
pub fn first_free(used: &[bool; 16]) -> usize
    ensures { FirstFree used.now result }
{
    match free_number(used) {
        Some(at) => at,
        None => 0,
    }
}
