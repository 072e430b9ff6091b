// The visible list, counted and written; and its pixels, counted.
ghost use Rattle.std.specs.Prelude.{◌≡◌, [], ◌∷◌, ◌++◌, map, ◌+◌, ◌*◌, ◌≤◌, length, drop, leb};
ghost use Rattle.std.proofs.lemmas.List.Edits.{sets};
ghost use Rattle.geom.specs.Areas.{areas};
ghost use Rattle.geom.specs.inner.Fits.{Fits, Within};
ghost use Rattle.geom.specs.Lists.{outside_all, relative, numbers};
ghost use Rattle.geom.specs.Lists as rule;
ghost use Rattle.rules.specs.inner.Lent.{AllFit};
ghost use Rattle.visible.specs.inner.Visits.{CanCount, Counts, CanAdd, Adds, CanWrite, Writes};

use crate::rects::relative;
use crate::walk::{Visitor, visit_seen};
use geom::Rect;
use geom::inner::numbers::write_rect;

// How many parts were visited.
#[derive(Clone, Copy)]
pub struct Counting {
    pub parts: usize,
}

impl Visitor for Counting {
    ghost Can = { CanCount };

    ghost Step = { Counts };

    fn is_done(&self, _x: u32, _y: u32, _w: u32, _h: u32) -> bool {
        false
    }

    fn visit(&mut self, _x: u32, _y: u32, _w: u32, _h: u32) {
        self.parts += 1;
    }
}

// How many pixels the parts have that were visited.
#[derive(Clone, Copy)]
pub struct Measuring {
    pub pixels: usize,
}

impl Visitor for Measuring {
    ghost Can = { CanAdd };

    ghost Step = { Adds };

    fn is_done(&self, _x: u32, _y: u32, _w: u32, _h: u32) -> bool {
        false
    }

    fn visit(&mut self, _x: u32, _y: u32, w: u32, h: u32) {
        self.pixels += w as usize * h as usize;
    }
}

// Parts of the window at `at`, written relative to it from the front of a list on; those so far take the first places. A place
// holds four numbers.
#[derive(Drop)]
pub struct Writing<'a> {
    pub at: Rect,
    pub list: &'a mut [u32],
    pub place: usize,
}

impl Visitor for Writing<'_> {
    ghost Can = { CanWrite };

    ghost Step = { Writes };

    fn is_done(&self, _x: u32, _y: u32, _w: u32, _h: u32) -> bool {
        false
    }

    fn visit(&mut self, x: u32, y: u32, w: u32, h: u32) {
        write_rect(
            self.list,
            self.place,
            relative(self.at, Rect::new(x, y, w, h)),
        );
        self.place += 1;
    }
}

// How many parts of `at` lie outside the rectangles above it.
pub fn count(at: Rect, above: &[Rect]) -> usize
    requires { Fits at × AllFit above.now × (length above.now ≤ 16) }
    ensures { result ≡ length (outside_all (at ∷ []) above.now) }
{
    let mut counting = Counting { parts: 0 };
    visit_seen(at, above, &mut counting);
    counting.parts
}

// How many pixels of `at` lie outside them: the areas of those parts, added up as they are found.
pub fn pixels(at: Rect, above: &[Rect]) -> usize
    requires { Fits at × AllFit above.now × (length above.now ≤ 16) }
    ensures { result ≡ areas (outside_all (at ∷ []) above.now) }
{
    let mut measuring = Measuring { pixels: 0 };
    visit_seen(at, above, &mut measuring);
    measuring.pixels
}

// The most parts that n rectangles can leave.
fn most(n: usize) -> usize
    requires { n ≤ 16 }
    ensures { result ≡ rule.most n }
{
    (n + 1) * (2 * n + 1)
}

// Do `len` numbers hold the visible list? It is counted only where they do not hold the most parts that there can be.
pub fn has_room(at: Rect, above: &[Rect], len: usize) -> bool
    requires { Fits at × AllFit above.now × (length above.now ≤ 16) }
    ensures { result ≡ leb (4 * length (outside_all (at ∷ []) above.now)) len }
{
    let places = len / 4;
    most(above.len()) <= places || count(at, above) <= places
}

// Writes the visible list of a window at `at` under the rectangles, relative to the window; returns how many rectangles it has.
pub fn list(at: Rect, above: &[Rect], out: &mut [u32]) -> usize
    requires fits { Fits at × AllFit above.now × (length above.now ≤ 16) }
    requires room { 4 * length (outside_all (at ∷ []) above.now) ≤ length out.old }
    ensures value { result ≡ length (outside_all (at ∷ []) above.now) }
    ensures out_after { out.new ≡ numbers (map (relative at) (outside_all (at ∷ []) above.now)) ++ drop (4 * result) out.old }
{
    let mut writing = Writing {
        at,
        list: out,
        place: 0,
    };
    visit_seen(at, above, &mut writing);
    writing.place
}
