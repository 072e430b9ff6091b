// The displays: rectangles of the one lent screen, in order of adding. Document 02, N2. Translated from video/mod.rs.
//
// The functions here are called by our own crates. Each `requires` is part of what a session keeps of its displays
// (specs/Represents.antt).
#![tactic(auto)]

ghost use Rattle.std.specs.Prelude.{◌≡◌, [], ◌≤◌, take};
ghost use Rattle.geom.specs.Geom.{contains};
ghost use Rattle.geom.specs.Displays.{first_on, closest_to, display_for};
ghost use Rattle.geom.specs.Rect16.{Small, rect_of};
ghost use Rattle.geom.specs.Refusals.{answer_of, option_of};
ghost use Rattle.rules.specs.Displays.{on_screen};
ghost use Rattle.display.specs.Represents.{regions, RepDisplays, located_of, Adds, added};

use geom::inner::rect16::Rect16;
use geom::inner::small::{MOST, is_small};
use geom::inner::{bottom, clamp_pos, dist_sq, is_empty, right};
use geom::refusal::Refusal;
use geom::{Pos, Rect};

pub mod update;

// The first `len` areas. It is an array with its length beside it, and `RepDisplays` a clause and no invariant, since C
// owns the session that holds it.
#[repr(C)]
#[derive(Clone, Copy)]
pub struct Displays {
    pub areas: [Rect16; 8],
    pub len: u8,
}

// The display that a position is on, or the closest one. It is no Result, since neither is a failure.
#[derive(Clone, Copy, Debug, PartialEq, Eq)]
pub enum Located {
    On(Rect),
    Closest(Rect),
}

// Question 15 of a rectangle that passed question 5.
fn on_screen(r: Rect) -> bool
    requires { Small r }
    ensures { result ≡ on_screen r }
{
    !is_empty(r) && (right(r) <= MOST && bottom(r) <= MOST)
}

fn has(area: Rect16, pos: Pos) -> bool
    ensures { result ≡ contains (rect_of area) pos.x pos.y }
{
    area.rect().contains(pos) == Ok(true)
}

impl Displays {
    pub fn none() -> Displays
        ensures { (regions result ≡ []) × RepDisplays result }
    {
        Displays {
            areas: [Rect16::new(0, 0, 0, 0); 8],
            len: 0,
        }
    }

    // One display more, behind the others. A refused call leaves them as they were.
    pub fn add(&mut self, region: Rect) -> Result<(), Refusal>
        requires { RepDisplays self.old }
        ensures { Adds self.old region (added self.new (answer_of result)) }
    {
        if !is_small(region) {
            return Err(Refusal::TooLarge);
        }
        if !on_screen(region) {
            return Err(Refusal::DisplaySize);
        }
        if self.len >= 8 {
            return Err(Refusal::TooManyDisplays);
        }
        let last = Rect16::new(region.pos.x, region.pos.y, region.dims.w, region.dims.h);
        self.areas[self.len as usize] = last;
        self.len += 1;
        Ok(())
    }

    fn present(&self) -> &[Rect16]
        requires { RepDisplays self.now }
        ensures { result.now ≡ take self.now.len self.now.areas }
    {
        &self.areas[..self.len as usize]
    }

    // The first display that contains the position.
    fn with_display_at_pos(&self, pos: Pos) -> Option<Rect>
        requires { RepDisplays self.now }
        ensures { option_of result ≡ first_on (regions self.now) pos.x pos.y }
    {
        let areas = self.present();
        for area in areas {
            if has(*area, pos) {
                return Some(area.rect());
            }
        }
        None
    }

    // The nearest display, the first of those that are equally near; with no display (0,0,0,0).
    fn closest(&self, pos: Pos) -> Rect
        requires { RepDisplays self.now × (pos.x ≤ 32767) × (pos.y ≤ 32767) }
        ensures { result ≡ closest_to (regions self.now) pos.x pos.y }
    {
        let areas = self.present();
        let mut dist = u64::MAX;
        let mut near = Rect16::new(0, 0, 0, 0);
        for area in areas {
            let new_dist = dist_sq(pos, clamp_pos(area.rect(), pos));
            if new_dist < dist {
                dist = new_dist;
                near = *area;
            }
        }
        near.rect()
    }

    pub fn get_display_for_pos(&self, pos: Pos) -> Located
        requires { RepDisplays self.now × (pos.x ≤ 32767) × (pos.y ≤ 32767) }
        ensures { located_of result ≡ display_for (regions self.now) pos.x pos.y }
    {
        match self.with_display_at_pos(pos) {
            Some(d) => Located::On(d),
            None => Located::Closest(self.closest(pos)),
        }
    }
}
