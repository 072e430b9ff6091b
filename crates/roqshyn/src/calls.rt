// The calls that change a session, which lies behind a pointer.
//
// Before `roq_start` the memory holds zeros or a session; before any other call, a session that `roq_start` and later
// calls left.
ghost use Rattle.rules.specs.Calls.{Call};
ghost use Rattle.rules.specs.Panels.{Write};
ghost use Rattle.windows.specs.View.{done, Given, Meets, MeetsStore, MeetsAltered, MeetsMark, MeetsScreen, Starts};
ghost use Rattle.roqshyn.specs.Answers.{Creates, Pops, RoutesTo, as_written};
ghost use Rattle.roqshyn.specs.Events.{event_of, Routes};

use crate::answers::{RoqAltered, code};
use crate::events::{RoqEvent, RoqPopped, RoqRouted, route_to};
use crate::values::RoqCreated;
use geom::{Dims, Pos, Rect};
use window::ids::WinId;
use windows::Session;

#[unsafe(no_mangle)]
pub extern "C" fn roq_start(s: &mut Session, c: u32) -> u32
    ensures { Starts c (done s.new result) }
{
    let (session, started) = Session::start(c);
    *s = session;
    code(started)
}

#[unsafe(no_mangle)]
pub extern "C" fn roq_create(s: &mut Session) -> RoqCreated
    requires { Given s.old }
    ensures { Creates s.old s.new result }
{
    s.create().into()
}

#[unsafe(no_mangle)]
pub extern "C" fn roq_show(s: &mut Session, id: WinId) -> u32
    requires { Given s.old }
    ensures { Meets (Call.Show id.0) s.old (done s.new result) }
{
    code(s.show(id))
}

#[unsafe(no_mangle)]
pub extern "C" fn roq_raise(s: &mut Session, id: WinId) -> u32
    requires { Given s.old }
    ensures { Meets (Call.Raise id.0) s.old (done s.new result) }
{
    code(s.raise(id))
}

#[unsafe(no_mangle)]
pub extern "C" fn roq_hide(s: &mut Session, id: WinId) -> u32
    requires { Given s.old }
    ensures { Meets (Call.Hide id.0) s.old (done s.new result) }
{
    code(s.hide(id))
}

#[unsafe(no_mangle)]
pub extern "C" fn roq_drop(s: &mut Session, id: WinId) -> u32
    requires { Given s.old }
    ensures { Meets (Call.Drop id.0) s.old (done s.new result) }
{
    code(s.drop(id))
}

#[unsafe(no_mangle)]
pub extern "C" fn roq_mark(s: &mut Session, id: WinId) -> u32
    requires { Given s.old }
    ensures { MeetsMark id.0 s.old (done s.new result) }
{
    code(s.mark(id))
}

#[unsafe(no_mangle)]
pub extern "C" fn roq_move(s: &mut Session, id: WinId, x: u32, y: u32) -> u32
    requires { Given s.old }
    ensures { Meets (Call.Move id.0 x y) s.old (done s.new result) }
{
    code(s.move_window(id, Pos::new(x, y)))
}

#[unsafe(no_mangle)]
pub extern "C" fn roq_drag(s: &mut Session, id: WinId, x: u32, y: u32) -> u32
    requires { Given s.old }
    ensures { Meets (Call.Drag id.0 x y) s.old (done s.new result) }
{
    code(s.drag(id, Pos::new(x, y)))
}

#[unsafe(no_mangle)]
pub extern "C" fn roq_set_layer(s: &mut Session, id: WinId, layer: u32) -> u32
    requires { Given s.old }
    ensures { Meets (Call.SetLayer id.0 layer) s.old (done s.new result) }
{
    code(s.set_layer(id, layer))
}

#[unsafe(no_mangle)]
pub extern "C" fn roq_resize(s: &mut Session, id: WinId, w: u32, h: u32, store: &mut [u32]) -> u32
    requires { Given s.old }
    ensures { MeetsStore (Call.Resize id.0 w h store.old) s.old (done s.new result) store.new }
{
    code(s.resize(id, Dims::new(w, h), store))
}

#[unsafe(no_mangle)]
pub extern "C" fn roq_fill(
    s: &mut Session,
    id: WinId,
    area: Rect,
    colour: u32,
    store: &mut [u32],
) -> RoqAltered
    requires { Given s.old }
    ensures { MeetsAltered id.0 (Write.fill area colour) store.old s.old (as_written s.new result) store.new }
{
    s.fill(id, area, colour, store).into()
}

#[unsafe(no_mangle)]
pub extern "C" fn roq_blit(
    s: &mut Session,
    id: WinId,
    area: Rect,
    stride: usize,
    data: &[u32],
    store: &mut [u32],
) -> RoqAltered
    requires { Given s.old }
    ensures { MeetsAltered id.0 (Write.blit area «data».now stride) store.old s.old (as_written s.new result) store.new }
{
    s.blit(id, area, stride, data, store).into()
}

#[unsafe(no_mangle)]
pub extern "C" fn roq_add_display(s: &mut Session, region: Rect) -> u32
    requires { Given s.old }
    ensures { Meets (Call.AddDisplay region) s.old (done s.new result) }
{
    code(s.add_display(region))
}

#[unsafe(no_mangle)]
pub extern "C" fn roq_maximise(s: &mut Session, id: WinId, store: &mut [u32]) -> u32
    requires { Given s.old }
    ensures { MeetsStore (Call.Maximise id.0 store.old) s.old (done s.new result) store.new }
{
    code(s.maximise_window(id, store))
}

#[unsafe(no_mangle)]
pub extern "C" fn roq_update_dims(s: &mut Session, store: &mut [u32]) -> u32
    requires { Given s.old }
    ensures { MeetsStore (Call.UpdateDims store.old) s.old (done s.new result) store.new }
{
    code(s.update_dims(store))
}

#[unsafe(no_mangle)]
pub extern "C" fn roq_route_to(s: &mut Session, e: RoqEvent) -> RoqRouted
    requires { Given s.old }
    ensures { RoutesTo (event_of e) s.old s.new result }
{
    route_to(s, e).into()
}

#[unsafe(no_mangle)]
pub extern "C" fn roq_route(s: &mut Session, e: RoqEvent) -> u32
    requires { Given s.old }
    ensures { Routes (event_of e) s.old (done s.new result) }
{
    code(route_to(s, e))
}

#[unsafe(no_mangle)]
pub extern "C" fn roq_pop(s: &mut Session, id: WinId) -> RoqPopped
    requires { Given s.old }
    ensures { Pops id.0 s.old s.new result }
{
    s.pop(id).into()
}

#[unsafe(no_mangle)]
pub extern "C" fn roq_redraw(
    s: &mut Session,
    forced: bool,
    width: u32,
    height: u32,
    store: &[u32],
    screen: &mut [u32],
) -> u32
    requires { Given s.old }
    ensures { MeetsScreen (Call.Redraw forced width height store.now screen.old) s.old (done s.new result) screen.new }
{
    code(s.redraw(forced, width, height, store, screen))
}

#[unsafe(no_mangle)]
pub extern "C" fn roq_begin(s: &mut Session, forced: bool) -> u32
    requires { Given s.old }
    ensures { Meets (Call.Begin forced) s.old (done s.new result) }
{
    s.begin(forced);
    0
}

#[unsafe(no_mangle)]
pub extern "C" fn roq_dim(s: &mut Session, on: bool) -> u32
    requires { Given s.old }
    ensures { Meets (Call.Dim on) s.old (done s.new result) }
{
    s.dim(on);
    0
}

#[unsafe(no_mangle)]
pub extern "C" fn roq_portion(
    s: &mut Session,
    width: u32,
    height: u32,
    store: &[u32],
    screen: &mut [u32],
) -> u32
    requires { Given s.old }
    ensures { MeetsScreen (Call.Portion width height store.now screen.old) s.old (done s.new result) screen.new }
{
    code(s.portion(width, height, store, screen))
}
