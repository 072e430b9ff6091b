// A release stays with its press: document 02, N1. The window that took the last MouseDown, the window that an event at
// a point is for, and the pixel of a window that is nearest to the point.
ghost use Rattle.std.specs.Prelude.{◌≡◌, ◌-◌, ◌<◌, length};
ghost use Rattle.rules.specs.Order.{forget};
ghost use Rattle.geom.specs.Nearest.{cut};
ghost use Rattle.order.specs.Ids.{nums, grab_of};
ghost use Rattle.order.specs.inner.Frames.{frame_at, Shown};
ghost use Rattle.topmost.specs.inner.Topmost.{hit_of, taker_at};

use crate::topmost;
use geom::inner::is_empty;
use geom::inner::rect16::Rect16;
use window::ids::WinId;

// Who is remembered where no window is: an id that no window has. It is no Option, since a session holds it in C's
// memory.
pub const NOBODY: WinId = WinId(16);

// Who is remembered once a window is hidden: any other window stays.
pub fn forget(grab: WinId, id: WinId) -> WinId
    ensures { grab_of result ≡ forget id.0 (grab_of grab) }
{
    if grab == id {
        return NOBODY;
    }
    grab
}

// The window `grab`, if it is one and has pixels; else the topmost one at the point.
pub fn taker(areas: &[Rect16; 16], shown: &[WinId], grab: WinId, x: u32, y: u32) -> Option<WinId>
    requires { Shown areas.now shown.now (length shown.now) }
    ensures { hit_of result ≡ taker_at (frame_at areas.now) x y (nums shown.now) (grab_of grab) }
{
    if grab.0 < 16 && !is_empty(areas[grab.0 as usize].rect()) {
        return Some(grab);
    }
    topmost(areas, shown, x, y)
}

// Of the n numbers from `first` on, the one nearest to p, counted from `first`.
pub fn nearest(first: u32, n: u32, p: u32) -> u32
    requires { 0 < n }
    ensures { result ≡ cut first n p - first }
{
    p.saturating_sub(first).min(n - 1)
}
