// Where a redraw or the next portion would write. Document 03, A2.
ghost use Rattle.std.specs.Prelude.{◌≡◌, true, ◌&&◌, ◌≤◌, ◌<◌, Ok, length};
ghost use Rattle.geom.specs.Geom.{contains};
ghost use Rattle.geom.specs.Rect16.{Small};
ghost use Rattle.rules.specs.Stale.{stale};
ghost use Rattle.rules.specs.Walk.{hit_any};
ghost use Rattle.rules.specs.inner.Lent.{AllFit};
ghost use Rattle.window.specs.Represents.{RepWindow};
ghost use Rattle.visible.specs.inner.Extents.{Spans, Joins};
ghost use Rattle.windows.specs.View.{group, Given, stale_in, stale_of};
ghost use Rattle.windows.specs.inner.Stale.{CourseOf, between, written_in, found_by};

use crate::inner::frames::rects_from;
use crate::inner::redraw::is_drawn;
use crate::{Session, Shared};
use geom::Rect;
use geom::inner::small::is_small;
use geom::refusal::Refusal;
use order::rects::dirty_of;
use visible::extents::Extents;
use window::Window;
use window::ids::Place;

// The windows that a call goes through: those of the render order from one place on to before another; and whether it
// draws them in full.
#[derive(Clone, Copy)]
pub struct Course {
    pub from: usize,
    pub to: usize,
    pub full: bool,
}

impl Shared {
    // Of the call that is meant: questions 28, and 20 where it is the next portion.
    fn course(&self, which: u32) -> Result<Course, Refusal>
        requires { self.now.due.walk.on ≡ true → self.now.due.walk.next.0 < 16 }
        ensures { CourseOf self.now.due self.now.shown which result }
    {
        let walk = self.due.walk;
        match which {
            0 | 1 => Ok(Course {
                from: 0,
                to: self.shown,
                full: which == 1 || self.due.owed,
            }),
            2 => {
                if !walk.on {
                    return Err(Refusal::NoWalk);
                }
                Ok(Course {
                    from: walk.next.0,
                    to: walk.next.0 + 1,
                    full: walk.full,
                })
            }
            _ => Err(Refusal::WhichCall),
        }
    }
}

// The rectangle of the extents that were found, if there is a pixel.
fn found(e: Extents) -> Option<Rect>
    requires { e.left < e.right → e.top < e.bottom }
    ensures { stale_in (Ok result) ≡ stale_of (found_by e) }
{
    if e.left < e.right {
        return Some(Rect::new(e.left, e.top, e.right - e.left, e.bottom - e.top));
    }
    None
}

// Joins what would be written of a window under others, inside the area, if it is to be drawn.
fn join_window(e: &mut Extents, win: &Window, full: bool, above: &[Rect], area: Rect)
    requires { RepWindow win.now × Small area × AllFit above.now × (length above.now ≤ 16) }
    ensures { Joins (written_in area full win.now above.now) e.old e.new }
{
    if is_drawn(win, full) {
        let dirty = dirty_of(full, &win.damage);
        e.join(win.at.rect(), above, dirty.as_slice(), area);
    }
}

// The extents of what would be written of the windows in the course, inside the area.
fn extents_of(s: &Session, course: Course, area: Rect) -> Extents
    requires { Given s.now × Small area × (course.from ≤ course.to) × (course.to ≤ s.now.shared.shown) }
    ensures { Spans (λ px py. contains area px py && hit_any (group s.now) course.full (between course.from course.to (group s.now).order) px py) result }
{
    let shown = s.shared.shown;
    let all = rects_from(s, Place::lowest());
    let mut e = Extents::none();
    for p in course.from..course.to {
        let at = s.shared.order[p].0 as usize;
        let above = &all.rects[p + 1..shown];
        join_window(&mut e, &s.windows[at], course.full, above, area);
    }
    e
}

impl Session {
    // The smallest rectangle that holds every pixel of the area which the call that is meant would write: 0 an
    // undivided redraw that is not told to be full, 1 one that is, 2 the next portion.
    pub fn stale(&self, which: u32, area: Rect) -> Result<Option<Rect>, Refusal>
        requires { Given self.now }
        ensures { stale_in result ≡ stale_of (stale (group self.now) which area) }
    {
        if !is_small(area) {
            return Err(Refusal::TooLarge);
        }
        let course = self.shared.course(which)?;
        Ok(found(extents_of(self, course, area)))
    }
}
