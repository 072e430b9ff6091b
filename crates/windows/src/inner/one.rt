// The calls that touch one window, as functions of that window and of what the windows share. A refused call leaves both as they were.
ghost use Rattle.std.specs.Prelude.{◌≡◌, ◌<◌};
ghost use Rattle.std.proofs.Math.Option.{some};
ghost use Rattle.geom.specs.Refusals.{answer_of};
ghost use Rattle.window.specs.Represents.{RepWindow, win_of};
ghost use Rattle.rules.specs.Repair.{wholly_repaired};
ghost use Rattle.rules.specs.Calls.{Call};
ghost use Rattle.order.specs.Ids.{ids};
ghost use Rattle.order.specs.inner.Order.{render_idx};
ghost use Rattle.windows.specs.inner.One.{At, Held, SharedBy, MeetsAt, MeetsMarkAt, changed, renewed};
ghost use Rattle.windows.specs.inner.Pixels.{Becomes};
ghost use Rattle.windows.specs.inner.Sharing.{Hides, PutsOn};

use crate::Shared;
use geom::Pos;
use geom::inner::rect16::Rect16;
use geom::inner::small::small_point;
use geom::refusal::Refusal;
use order::layers::{insert, is_top, to_top};
use order::{close_gap, focus_after};
use topmost::release::forget;
use window::damage::Damage;
use window::ids::{Place, WinId, in_use};
use window::{CursorPos, Window};

// Where the window of an id lies: at its number. For a number that no window has it is 0, and the call is refused,
// whatever lies there.
pub fn slot(id: WinId) -> usize
    ensures { At id.0 result }
{
    if id.0 < 16 { id.0 as usize } else { 0 }
}

// A new window, at (0,0), of no size, unmarked, with no damage and no events. Only the fields of a new window are written: past
// the entries of its damage and queue the arrays stay as they were.
pub fn renew(win: &mut Window)
    ensures { win.new ≡ renewed win.old }
{
    win.queue.len = 0;
    win.damage.len = 0;
    win.at = Rect16 {
        x: 0,
        y: 0,
        w: 0,
        h: 0,
    };
    win.cursor = CursorPos::new();
    win.used = true;
    win.marked = false;
}

pub fn mark(win: &mut Window, shared: &mut Shared, id: WinId) -> Result<(), Refusal>
    requires { Held id.0 win.old shared.old }
    ensures { MeetsMarkAt id.0 win.old shared.old (changed win.new shared.new (answer_of result)) }
{
    if !in_use(id, win.used) {
        return Err(Refusal::UnknownId);
    }
    win.marked = true;
    Ok(())
}

pub fn move_window(
    win: &mut Window,
    shared: &mut Shared,
    id: WinId,
    pos: Pos,
) -> Result<(), Refusal>
    requires { Held id.0 win.old shared.old }
    ensures { MeetsAt (Call.Move id.0 pos.x pos.y) id.0 win.old shared.old (changed win.new shared.new (answer_of result)) }
{
    if !in_use(id, win.used) {
        return Err(Refusal::UnknownId);
    }
    if !small_point(pos.x, pos.y) {
        return Err(Refusal::TooLarge);
    }
    win.at.x = pos.x as u16;
    win.at.y = pos.y as u16;
    shared.maximised[id.0 as usize] = false;
    shared.owe(); // where it was is uncovered
    Ok(())
}

// On top of its layer, with the focus; nothing if shown already.
pub fn show(win: &Window, shared: &mut Shared, id: WinId) -> Result<(), Refusal>
    requires { Held id.0 win.now shared.old }
    ensures { MeetsAt (Call.Show id.0) id.0 win.now shared.old (changed win.now shared.new (answer_of result)) }
{
    if !in_use(id, win.used) {
        return Err(Refusal::UnknownId);
    }
    if shared.place_of(id).is_some() {
        return Ok(());
    }
    insert(&shared.layers, &mut shared.order, shared.shown, id);
    shared.shown += 1;
    shared.focus = id;
    shared.owe();
    Ok(())
}

// The window marked, and all of it damaged.
pub fn repair(win: &mut Window)
    requires { RepWindow win.old }
    ensures { Becomes win.old (wholly_repaired (win_of win.old)) win.new }
{
    win.damage = Damage::whole(win.at.w as u32, win.at.h as u32);
    win.marked = true;
}

// The window at a place of the order goes to the top of its layer and gets the focus, and `grab` stays. If the order
// changed, all of the window is repaired: a full redraw is owed where one was owed or a walk is on, else it is marked.
fn raise_shown(win: &mut Window, shared: &mut Shared, id: WinId, p: Place)
    requires { Held id.0 win.old shared.old × (some p.0 ≡ render_idx id.0 (ids shared.old.shown shared.old.order)) }
    ensures { MeetsAt (Call.Raise id.0) id.0 win.old shared.old (changed win.new shared.new 0) }
{
    shared.focus = id;
    if is_top(&shared.layers, shared.in_order(), p, id) {
        return;
    }
    to_top(&shared.layers, &mut shared.order, shared.shown, p, id);
    if shared.due.is_pending() {
        shared.owe();
    } else {
        repair(win);
    }
}

// To the top of its layer, with the focus. A window that has no place is hidden or not in use, which show asks.
pub fn raise(win: &mut Window, shared: &mut Shared, id: WinId) -> Result<(), Refusal>
    requires { Held id.0 win.old shared.old }
    ensures { MeetsAt (Call.Raise id.0) id.0 win.old shared.old (changed win.new shared.new (answer_of result)) }
{
    let Some(p) = shared.place_of(id) else {
        return show(win, shared, id);
    };
    raise_shown(win, shared, id, p);
    Ok(())
}

// This window of another layer, at its top if shown; nothing if the window has this layer.
fn put_on(shared: &mut Shared, id: WinId, layer: u8)
    requires { SharedBy shared.old × (id.0 < 16) }
    ensures { PutsOn id.0 layer shared.old shared.new }
{
    let at = id.0 as usize;
    if shared.layers[at] == layer {
        return;
    }
    shared.layers[at] = layer;
    if let Some(p) = shared.place_of(id) {
        to_top(&shared.layers, &mut shared.order, shared.shown, p, id);
        shared.owe(); // it covers others now, or they cover it
    }
}

// Puts the window on a layer; the focus stays where it is.
pub fn set_layer(win: &Window, shared: &mut Shared, id: WinId, layer: u32) -> Result<(), Refusal>
    requires { Held id.0 win.now shared.old }
    ensures { MeetsAt (Call.SetLayer id.0 layer) id.0 win.now shared.old (changed win.now shared.new (answer_of result)) }
{
    if !in_use(id, win.used) {
        return Err(Refusal::UnknownId);
    }
    if 1 < layer {
        return Err(Refusal::Layer);
    }
    put_on(shared, id, layer as u8);
    Ok(())
}

// The window leaves the render order and is not remembered; nothing if it is hidden.
fn leave_order(shared: &mut Shared, id: WinId)
    requires { SharedBy shared.old }
    ensures { Hides id.0 shared.old shared.new }
{
    let Some(p) = shared.place_of(id) else {
        return;
    };
    close_gap(&mut shared.order, shared.shown, p);
    shared.shown -= 1;
    shared.focus = focus_after(shared.focus, id, shared.in_order(), p);
    shared.grab = forget(shared.grab, id);
    shared.owe();
}

// Removed from the render order; nothing if hidden.
pub fn hide(win: &Window, shared: &mut Shared, id: WinId) -> Result<(), Refusal>
    requires { Held id.0 win.now shared.old }
    ensures { MeetsAt (Call.Hide id.0) id.0 win.now shared.old (changed win.now shared.new (answer_of result)) }
{
    if !in_use(id, win.used) {
        return Err(Refusal::UnknownId);
    }
    leave_order(shared, id);
    Ok(())
}

// Hides the window and frees its id; its pixels stay in the store.
pub fn drop(win: &mut Window, shared: &mut Shared, id: WinId) -> Result<(), Refusal>
    requires { Held id.0 win.old shared.old }
    ensures { MeetsAt (Call.Drop id.0) id.0 win.old shared.old (changed win.new shared.new (answer_of result)) }
{
    if !in_use(id, win.used) {
        return Err(Refusal::UnknownId);
    }
    leave_order(shared, id);
    win.used = false;
    Ok(())
}
