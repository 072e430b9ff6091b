// Where the windows of a session are, and which ids are in use.
ghost use Rattle.std.specs.Prelude.{◌≤◌, map, drop};
ghost use Rattle.rules.specs.Group.{win};
ghost use Rattle.order.specs.inner.Rects.{Holds};
ghost use Rattle.windows.specs.View.{group, Given};
ghost use Rattle.windows.specs.inner.Frames.{Framed};

use crate::Session;
use geom::inner::rect16::Rect16;
use order::frames::Frames;
use order::rects::Rects;
use window::ids::Place;

pub fn frames(s: &Session) -> Frames
    ensures { Framed s.now 16 result }
{
    let nowhere = Rect16 {
        x: 0,
        y: 0,
        w: 0,
        h: 0,
    };
    let mut frames = Frames {
        areas: [nowhere; 16],
        used: [false; 16],
    };
    for i in 0..16 {
        frames.areas[i] = s.windows[i].at;
        frames.used[i] = s.windows[i].used;
    }
    frames
}

// The rectangles of the shown windows from a place on, lowest first. Each is read where its window lies: of the others
// nothing is copied.
pub fn rects_from(s: &Session, p: Place) -> Rects
    requires { Given s.now × (p.0 ≤ s.now.shared.shown) }
    ensures { Holds result (map (λ i. (win (group s.now) i).at) (drop p.0 (group s.now).order)) }
{
    let mut list = Rects::none();
    let above = &s.shared.in_order()[p.0..];
    for id in above {
        list.push(s.windows[id.0 as usize].at);
    }
    list
}
