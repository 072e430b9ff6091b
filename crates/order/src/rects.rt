// Up to sixteen rectangles: what the crate `visible` is lent.
ghost use Rattle.std.specs.Prelude.{◌≡◌, [], ◌∷◌, ◌++◌, List, map, ◌≤◌, ◌<◌, length, take, drop};
ghost use Rattle.geom.specs.declared.Rect.{Rect};
ghost use Rattle.geom.specs.Rect16.{rect_of};
ghost use Rattle.window.specs.Represents.{rects, RepDamage};
ghost use Rattle.order.specs.Ids.{nums};
ghost use Rattle.order.specs.inner.Frames.{frame_at, Shown};
ghost use Rattle.order.specs.inner.Rects.{Holds, full_rect, dirty_of};

use geom::Rect;
use geom::inner::rect16::Rect16;
use window::damage::Damage;
use window::ids::{Place, WinId};

// The first `len`: an array with its length beside it, since the library has no heap.
#[derive(Clone, Copy)]
pub struct Rects {
    pub rects: [Rect; 16],
    pub len: usize,
}

impl Rects {
    pub fn none() -> Rects
        ensures { Holds result [] }
    {
        Rects {
            rects: [Rect::new(0, 0, 0, 0); 16],
            len: 0,
        }
    }

    // The full rectangle alone.
    pub fn full() -> Rects
        ensures { Holds result (full_rect ∷ []) }
    {
        Rects {
            rects: [Rect::FULL; 16],
            len: 1,
        }
    }

    pub fn as_slice(&self) -> &[Rect]
        requires { self.now.len ≤ 16 }
        ensures { result.now ≡ take self.now.len self.now.rects }
    {
        &self.rects[..self.len]
    }

    // One more, behind the others.
    pub fn push(&mut self, area: Rect16)
        requires { self.old.len < 16 }
        ensures { (rs : List Rect) → Holds self.old rs → Holds self.new (rs ++ (rect_of area ∷ [])) }
    {
        self.rects[self.len] = area.rect();
        self.len += 1;
    }

    // The dirty entries of a window.
    pub fn of_damage(d: &Damage) -> Rects
        requires { RepDamage d.now }
        ensures { Holds result (rects d.now) }
    {
        let mut list = Rects::none();
        let entries = d.entries();
        for area in entries {
            list.push(*area);
        }
        list
    }
}

// What a redraw takes for dirty: the full rectangle where it is full or no entry is there, else the entries.
pub fn dirty_of(full: bool, d: &Damage) -> Rects
    requires { RepDamage d.now }
    ensures { Holds result (dirty_of full (rects d.now)) }
{
    if full || d.is_empty() {
        return Rects::full();
    }
    Rects::of_damage(d)
}

// The rectangles of the windows from a place on, lowest first.
pub fn from(areas: &[Rect16; 16], shown: &[WinId], p: Place) -> Rects
    requires { Shown areas.now shown.now (length shown.now) × (p.0 ≤ length shown.now) }
    ensures { Holds result (map (frame_at areas.now) (drop p.0 (nums shown.now))) }
{
    let mut list = Rects::none();
    let above = &shown[p.0..];
    for id in above {
        list.push(areas[id.0 as usize]);
    }
    list
}
