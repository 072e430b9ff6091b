// The render order: windows by their numbers, lowest first, in the first places of an array of sixteen. A function that
// only reads it is lent the windows that are shown; one that changes it gets the array and how many are shown, which
// are two fields of a session in C's memory.
//
// The functions here are called by our own crates. Each `requires` is part of what a session keeps of its order.
#![tactic(auto)]

ghost use Rattle.std.specs.Prelude.{◌≡◌, ℕ, ◌-◌, ◌≤◌, ◌<◌, cond, eqb, length, get_or};
ghost use Rattle.window.specs.inner.Ids.{no_id};
ghost use Rattle.order.specs.Ids.{nums};
ghost use Rattle.order.specs.inner.Order.{idx_of, render_idx, Closed, Marks};

use window::ids::{Place, WinId};

pub mod frames;
pub mod layers;
pub mod places;
pub mod rects;

// Where a window stands in the order, if it is shown.
pub fn get_render_idx(shown: &[WinId], id: WinId) -> Option<Place>
    ensures { idx_of result ≡ render_idx id.0 (nums shown.now) }
{
    shown.iter().position(|w| *w == id).map(Place)
}

// Which windows are shown, by their numbers.
pub fn shown_ids(shown: &[WinId]) -> [bool; 16]
    requires { (p : ℕ) → p < length shown.now → (get_or shown.now p no_id).0 < 16 }
    ensures { Marks result (nums shown.now) }
{
    let mut flags = [false; 16];
    for id in shown {
        flags[id.0 as usize] = true;
    }
    flags
}

// The window at a place leaves the order: the higher ones come down by one.
pub fn close_gap(order: &mut [WinId; 16], shown: usize, p: Place)
    requires { (shown ≤ 16) × (p.0 < shown) }
    ensures { Closed order.old shown p.0 order.new }
{
    order.copy_within(p.0 + 1..shown, p.0);
}

// Who has the focus once window `id` left its place p, of those `left`: if it was focussed, the next lower, or the
// lowest, or 0.
pub fn focus_after(focus: WinId, id: WinId, left: &[WinId], p: Place) -> WinId
    requires { p.0 ≤ length left.now }
    ensures { result.0 ≡ cond (eqb focus.0 id.0) (get_or (nums left.now) (p.0 - 1) 0) focus.0 }
{
    if focus != id {
        return focus;
    }
    match left.get(p.prev().0) {
        Some(next) => *next,
        None => WinId(0),
    }
}
