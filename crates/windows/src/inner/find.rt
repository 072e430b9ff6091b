// What the queries of one window ask first: whether its id is in use, whether it is shown, where it lies and what lies
// above it.
ghost use Rattle.windows.specs.View.{group, Given};
ghost use Rattle.windows.specs.inner.Find.{Finds};

use crate::Session;
use crate::inner::frames::rects_from;
use crate::inner::one::slot;
use geom::Rect;
use geom::refusal::Refusal;
use order::rects::Rects;
use window::ids::{WinId, in_use};

// A window: where it lies, and what lies above it, if it is shown: the rectangles of the higher windows, lowest first.
#[derive(Clone, Copy)]
pub struct Found {
    pub at: Rect,
    pub above: Option<Rects>,
}

pub fn find(s: &Session, id: WinId) -> Result<Found, Refusal>
    requires { Given s.now }
    ensures { Finds (group s.now) id.0 result }
{
    let at = slot(id);
    if !in_use(id, s.windows[at].used) {
        return Err(Refusal::UnknownId);
    }
    let area = s.windows[at].at.rect();
    let Some(p) = s.shared.place_of(id) else {
        return Ok(Found {
            at: area,
            above: None,
        });
    };
    Ok(Found {
        at: area,
        above: Some(rects_from(s, p.next())),
    })
}
