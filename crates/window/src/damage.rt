// Damage: the areas of a window that changed since it was last drawn.
ghost use Rattle.std.specs.Prelude.{◌≡◌, [], ◌∷◌, ◌≤◌, eqb, take};
ghost use Rattle.geom.specs.Geom.{rect, union, contains_rect};
ghost use Rattle.geom.specs.Rect16.{Small, rect_of};
ghost use Rattle.window.specs.Window as rule;
ghost use Rattle.window.specs.Represents.{Low, rects, RepDamage};
ghost use Rattle.window.specs.inner.Changes.{MergesAt, JoinedTo, Dirtied};

use geom::inner::rect16::Rect16;
use geom::{Rect, inner};

// The dirty entries: the first `len` areas. The right and bottom sides of a merged one are at most 65,534.
// It is an array with its length beside it, and `RepDamage` a clause and no invariant, since C owns the session that
// holds it. `Small` stays a clause too: a type for small areas would be turned into a Rect for each function of geom.
#[repr(C)]
#[derive(Clone, Copy)]
pub struct Damage {
    pub areas: [Rect16; 16],
    pub len: u8,
}

impl Damage {
    // No entry.
    pub fn none() -> Damage
        ensures { (rects result ≡ []) × RepDamage result }
    {
        Damage {
            areas: [Rect16::new(0, 0, 0, 0); 16],
            len: 0,
        }
    }

    // The one entry (0,0,w,h).
    pub fn whole(w: u32, h: u32) -> Damage
        requires { (w ≤ 32767) × (h ≤ 32767) }
        ensures { (rects result ≡ rect 0 0 w h ∷ []) × RepDamage result }
    {
        Damage {
            areas: [Rect16::new(0, 0, w, h); 16],
            len: 1,
        }
    }

    pub fn is_empty(&self) -> bool
        ensures { result ≡ eqb self.now.len 0 }
    {
        self.len == 0
    }

    pub fn entries(&self) -> &[Rect16]
        requires { RepDamage self.now }
        ensures { result.now ≡ take self.now.len self.now.areas }
    {
        &self.areas[..self.len as usize]
    }

    // Does an entry contain the area?
    fn contains(&self, area: Rect) -> bool
        requires { RepDamage self.now × Small area }
        ensures { result ≡ rule.any_contains (rects self.now) area }
    {
        self.entries().iter().any(|e| contains(*e, area))
    }

    // The first entry that merges with the area. Document 01 names the form of this search, a loop with a label that is left from inside.
    fn merging(&self, area: Rect) -> Option<usize>
        requires { RepDamage self.now × Small area }
        ensures { MergesAt self.now area result }
    {
        let entries = self.entries();
        let mut found = None;
        'entries: for i in 0..entries.len() {
            if merges(entries[i], area) {
                found = Some(i);
                break 'entries;
            }
        }
        found
    }

    // The area joins the end; a 17th entry makes the list (0,0,w,h). Past the last entry the array stays as it was.
    fn append(&mut self, w: u32, h: u32, area: Rect)
        requires { RepDamage self.old × Small area × (w ≤ 32767) × (h ≤ 32767) }
        ensures { JoinedTo w h self.old area self.new }
    {
        if self.len < 16 {
            let last = Rect16::new(area.pos.x, area.pos.y, area.dims.w, area.dims.h);
            self.areas[self.len as usize] = last;
            self.len += 1;
        } else {
            let all = Rect16::new(0, 0, w, h);
            self.areas[0] = all;
            self.len = 1;
        }
    }

    // A window of w by h was changed in the area.
    pub fn add(&mut self, w: u32, h: u32, area: Rect)
        requires { RepDamage self.old × Small area × (w ≤ 32767) × (h ≤ 32767) }
        ensures { Dirtied w h self.old area self.new }
    {
        if inner::is_empty(area) || self.contains(area) {
            return;
        }
        match self.merging(area) {
            Some(i) => {
                let both = joined(self.areas[i], area);
                self.areas[i] = both;
            }
            None => self.append(w, h, area),
        }
    }
}

// Does a side of the area lie in the entry, past the entry's own low side?
fn touches(elow: u32, ehigh: u32, alow: u32, ahigh: u32) -> bool
    ensures { result ≡ rule.touches elow ehigh alow ahigh }
{
    elow < alow && alow <= ehigh || elow < ahigh && ahigh <= ehigh
}

// Does the entry contain the area?
fn contains(entry: Rect16, area: Rect) -> bool
    requires { Small area }
    ensures { result ≡ contains_rect (rect_of entry) area }
{
    entry.rect().contains_rect(area) == Ok(true)
}

// Same top and bottom, and touching from left to right; or same left and right, and touching from top to bottom.
#[tactic(auto, unfolding(crate::specs::Window::merges))]
fn merges(entry: Rect16, a: Rect) -> bool
    requires { Small a }
    ensures { result ≡ rule.merges (rect_of entry) a }
{
    let e = entry.rect();
    let (eright, ebottom) = (inner::right(e), inner::bottom(e));
    let (aright, abottom) = (inner::right(a), inner::bottom(a));
    e.pos.y == a.pos.y && ebottom == abottom && touches(e.pos.x, eright, a.pos.x, aright)
        || e.pos.x == a.pos.x && eright == aright && touches(e.pos.y, ebottom, a.pos.y, abottom)
}

// The entry and the area as one.
fn joined(entry: Rect16, area: Rect) -> Rect16
    requires { Low (rect_of entry) × Small area }
    ensures { rect_of result ≡ union (rect_of entry) area }
{
    // question 14 holds of both
    let u = entry.rect().union(area).unwrap();
    Rect16::new(u.pos.x, u.pos.y, u.dims.w, u.dims.h)
}
