// The calls that read a session, which lies behind a pointer, and change nothing of it.
ghost use Rattle.std.specs.Prelude.{◌≡◌};
ghost use Rattle.rules.specs.DisplayAt.{display_at};
ghost use Rattle.rules.specs.Stale.{stale};
ghost use Rattle.rules.specs.Waiting.{waiting};
ghost use Rattle.rules.specs.State.{window_state, session_state};
ghost use Rattle.windows.specs.View.{group, Given, Lists, Prints, Shares, Hits, Looks, placed, stale_of, window_of, state_of};
ghost use Rattle.roqshyn.specs.Answers.{displayed, as_listing, as_share, as_placed, as_stale, as_window};
ghost use Rattle.roqshyn.specs.Looks.{look_of};

use crate::answers::{RoqListing, code};
use crate::looks::RoqLook;
use crate::values::{RoqDisplay, RoqPlaced, RoqShare, RoqStale, RoqWindow};
use geom::{Pos, Rect};
use window::ids::WinId;
use windows::{Session, SessionState};

#[unsafe(no_mangle)]
pub extern "C" fn roq_visible(s: &Session, id: WinId, list: &mut [u32]) -> RoqListing
    requires { Given s.now }
    ensures { Lists (group s.now) id.0 list.old (as_listing result) list.new }
{
    s.visible(id, list).into()
}

#[unsafe(no_mangle)]
pub extern "C" fn roq_sheet(s: &Session, id: WinId, bytes: &mut [u8]) -> RoqListing
    requires { Given s.now }
    ensures { Prints (group s.now) id.0 bytes.old (as_listing result) bytes.new }
{
    s.sheet(id, bytes).into()
}

#[unsafe(no_mangle)]
pub extern "C" fn roq_share(s: &Session, id: WinId) -> RoqShare
    requires { Given s.now }
    ensures { Shares (group s.now) id.0 (as_share result) }
{
    s.share(id).into()
}

#[unsafe(no_mangle)]
pub extern "C" fn roq_hits(s: &Session, points: &[u32], answers: &mut [u32]) -> u32
    requires { Given s.now }
    ensures { Hits (group s.now) points.now answers.old result answers.new }
{
    code(s.hits(points, answers))
}

#[unsafe(no_mangle)]
pub extern "C" fn roq_look(
    s: &Session,
    id: WinId,
    look: RoqLook,
    tw: u32,
    th: u32,
    store: &[u32],
    target: &mut [u32],
) -> u32
    requires { Given s.now }
    ensures { Looks (group s.now) id.0 (look_of look) store.now target.old tw th result target.new }
{
    code(s.look(id, look.into(), tw, th, store, target))
}

#[unsafe(no_mangle)]
pub extern "C" fn roq_display_at(s: &Session, x: u32, y: u32) -> RoqDisplay
    requires { Given s.now }
    ensures { result ≡ displayed (display_at (group s.now) x y) }
{
    s.get_display_for_pos(Pos::new(x, y)).into()
}

#[unsafe(no_mangle)]
pub extern "C" fn roq_focus(s: &Session) -> WinId
    ensures { result.0 ≡ (group s.now).focus }
{
    s.focus()
}

#[unsafe(no_mangle)]
pub extern "C" fn roq_rect_of(s: &Session, id: WinId) -> RoqPlaced
    requires { Given s.now }
    ensures { as_placed result ≡ placed (group s.now) id.0 }
{
    s.rect_of(id).into()
}

#[unsafe(no_mangle)]
pub extern "C" fn roq_stale(s: &Session, which: u32, area: Rect) -> RoqStale
    requires { Given s.now }
    ensures { as_stale result ≡ stale_of (stale (group s.now) which area) }
{
    s.stale(which, area).into()
}

#[unsafe(no_mangle)]
pub extern "C" fn roq_waiting(s: &Session) -> u32
    requires { Given s.now }
    ensures { result ≡ waiting (group s.now) }
{
    s.waiting()
}

#[unsafe(no_mangle)]
pub extern "C" fn roq_window(s: &Session, id: WinId) -> RoqWindow
    requires { Given s.now }
    ensures { as_window result ≡ window_of (window_state (group s.now) id.0) }
{
    s.window(id).into()
}

#[unsafe(no_mangle)]
pub extern "C" fn roq_state(s: &Session) -> SessionState
    requires { Given s.now }
    ensures { result ≡ state_of (session_state (group s.now)) }
{
    s.state()
}
