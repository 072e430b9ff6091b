// The calls route and pop: document 01, "Events", and document 02, N1. Translated from WindowGroup::handle_input,
// get_win_at_pos and, of window.rs, WindowInput.
ghost use Rattle.std.specs.Prelude.{◌≡◌, ◌<◌, Some, Ok};
ghost use Rattle.std.proofs.Math.Option.{some};
ghost use Rattle.geom.specs.Refusals.{answer_of};
ghost use Rattle.window.specs.Represents.{RepWindow};
ghost use Rattle.order.specs.Ids.{grab_of};
ghost use Rattle.windows.specs.View.{Given, MeetsTaker};
ghost use Rattle.windows.specs.inner.Events.{target_of, at_point, grab_after, Tellable, ToldTo};
ghost use Rattle.windows.specs.inner.Aimed.{Aims, AimsAt, IsAimed, point_x, point_y, PopsAt};

use crate::Session;
use crate::inner::frames::frames;
use geom::Pos;
use geom::inner::small::small_point;
use geom::refusal::Refusal;
use topmost::release::{NOBODY, nearest, taker};
use window::ids::{WinId, in_use};
use window::{Event, Window};

// Where an event goes: to the focus, or to a point of the screen: there to window `grab`, if it is one and has pixels, else to the
// topmost window.
#[derive(Clone, Copy)]
pub enum Target {
    Focus,
    Point { grab: WinId, x: u32, y: u32 },
}

// The window that takes an event, what it is told, and which window is remembered once it took it.
#[derive(Clone, Copy)]
pub struct Aim {
    pub id: WinId,
    pub event: Event,
    pub grab: WinId,
}

// A Resize goes to nobody. Only a release is for the window that is remembered.
fn target_of(e: Event, grab: WinId) -> Result<Option<Target>, Refusal>
    ensures { result ≡ target_of e grab }
{
    match e {
        Event::Resize => Ok(None),
        // question 21, before every other
        Event::KeyFire(_) => Err(Refusal::KeyFire),
        Event::KeyDown(_) | Event::KeyUp(_) | Event::Text(_) => Ok(Some(Target::Focus)),
        Event::MouseMove { x, y, .. }
        | Event::MouseDown { x, y, .. }
        | Event::MouseClick { x, y, .. } => Ok(Some(Target::Point { grab: NOBODY, x, y })),
        Event::MouseUp { x, y, .. } => Ok(Some(Target::Point { grab, x, y })),
    }
}

// A pointer event at another point.
fn at_point(e: Event, x: u32, y: u32) -> Event
    ensures { result ≡ at_point e x y }
{
    match e {
        Event::MouseMove { dx, dy, .. } => Event::MouseMove { x, y, dx, dy },
        Event::MouseDown { button, .. } => Event::MouseDown { x, y, button },
        Event::MouseClick { button, count, .. } => Event::MouseClick {
            x,
            y,
            button,
            count,
        },
        Event::MouseUp { button, .. } => Event::MouseUp { x, y, button },
        _ => e,
    }
}

// The window that is remembered once this one took an event: that of a MouseDown, until a MouseUp was taken, by any.
fn grab_after(e: Event, id: WinId, grab: WinId) -> WinId
    requires { id.0 < 16 }
    ensures { grab_of result ≡ grab_after e (some id.0) (grab_of grab) }
{
    match e {
        Event::MouseDown { .. } => id,
        Event::MouseUp { .. } => NOBODY,
        _ => grab,
    }
}

// A move replaces the cursor's new point, any other event joins the queue.
pub fn tell(win: &mut Window, e: Event) -> Result<(), Refusal>
    requires { RepWindow win.old × Tellable e }
    ensures { ToldTo win.old e win.new (answer_of result) }
{
    if let Event::MouseMove { x, y, .. } = e {
        win.cursor.update(x, y);
        return Ok(());
    }
    if 16 <= win.queue.len {
        return Err(Refusal::QueueFull);
    }
    win.queue.push(e);
    Ok(())
}

// The window that takes an event, if one does, and what it is told.
pub fn aim_event(s: &Session, e: Event) -> Result<Option<Aim>, Refusal>
    requires { Given s.now }
    ensures { Aims (MeetsTaker e s.now) s.now result }
{
    let Some(target) = target_of(e, s.shared.grab)? else {
        return Ok(None);
    };
    let aim = match target {
        Target::Focus => aim_key(s, e)?,
        Target::Point { grab, x, y } => aim_pointer(s, e, grab, x, y)?,
    };
    Ok(Some(aim))
}

// At the focus, if it is shown.
fn aim_key(s: &Session, e: Event) -> Result<Aim, Refusal>
    requires { Given s.now × (target_of e s.now.shared.grab ≡ Ok (Some Target.Focus)) }
    ensures { IsAimed (MeetsTaker e s.now) s.now result }
{
    let focus = s.shared.focus;
    let Some(_) = s.shared.place_of(focus) else {
        return Err(Refusal::NoWindow);
    };
    Ok(Aim {
        id: focus,
        event: e,
        grab: s.shared.grab,
    })
}

// At the window that takes it, at the pixel nearest to the point: in the topmost window that contains the point, the
// point itself.
fn aim_pointer(s: &Session, e: Event, grab: WinId, x: u32, y: u32) -> Result<Aim, Refusal>
    requires { Given s.now × (target_of e s.now.shared.grab ≡ Ok (Some (Target.Point grab x y))) }
    ensures { IsAimed (MeetsTaker e s.now) s.now result }
{
    if !small_point(x, y) {
        return Err(Refusal::TooLarge);
    }
    let areas = frames(s).areas;
    let Some(id) = taker(&areas, s.shared.in_order(), grab, x, y) else {
        return Err(Refusal::NoWindow);
    };
    let at = id.0 as usize;
    let area = areas[at];
    let column = nearest(area.x as u32, area.w as u32, x);
    let row = nearest(area.y as u32, area.h as u32, y);
    Ok(Aim {
        id,
        event: at_point(e, column, row),
        grab: grab_after(e, id, s.shared.grab),
    })
}

// The point of an event: (0,0) where its kind has none.
pub fn point_of(e: Event) -> Pos
    ensures { (result.x ≡ point_x e) × (result.y ≡ point_y e) }
{
    match e {
        Event::MouseMove { x, y, .. }
        | Event::MouseDown { x, y, .. }
        | Event::MouseClick { x, y, .. }
        | Event::MouseUp { x, y, .. } => Pos::new(x, y),
        _ => Pos::new(0, 0),
    }
}

// The queue first, then an unread move.
pub fn pop(win: &mut Window, id: WinId) -> Result<Event, Refusal>
    requires { RepWindow win.old }
    ensures { PopsAt id.0 win.old win.new result }
{
    if !in_use(id, win.used) {
        return Err(Refusal::UnknownId);
    }
    if let Some(e) = win.queue.pop() {
        return Ok(e);
    }
    if !win.cursor.is_dirty {
        return Err(Refusal::NoEvent);
    }
    Ok(win.cursor.take())
}
