// The place of each window in the render order.
ghost use Rattle.std.specs.Prelude.{◌≡◌, ℕ, ◌<◌, map, length, get_or};
ghost use Rattle.window.specs.inner.Ids.{no_id};
ghost use Rattle.order.specs.inner.Order.{Places, place_or_16};

use window::ids::{Place, WinId};

// The places of the windows by their numbers; none where a window is not shown.
pub fn places_of(shown: &[WinId]) -> [Option<Place>; 16]
    requires { (p : ℕ) → p < length shown.now → (get_or shown.now p no_id).0 < 16 }
    ensures { Places shown.now (length shown.now) (map place_or_16 result) }
{
    let mut places = [None; 16];
    for (i, id) in shown.iter().enumerate() {
        places[id.0 as usize] = Some(Place(i));
    }
    places
}
