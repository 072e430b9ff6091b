// The topmost window at a point of the screen. Translated from WindowGroup::get_win_at_pos.
#![tactic(auto)]

ghost use Rattle.std.specs.Prelude.{◌≡◌, length};
ghost use Rattle.std.proofs.Math.Option.{none};
ghost use Rattle.geom.specs.Geom.{contains};
ghost use Rattle.geom.specs.Rect16.{rect_of};
ghost use Rattle.order.specs.Ids.{nums};
ghost use Rattle.order.specs.inner.Frames.{frame_at, Shown};
ghost use Rattle.topmost.specs.inner.Topmost.{hit_of, topmost_at};

pub mod hits;
pub mod points;
pub mod release;

use geom::Pos;
use geom::inner::rect16::Rect16;
use window::ids::WinId;

fn has(area: Rect16, x: u32, y: u32) -> bool
    ensures { result ≡ contains (rect_of area) x y }
{
    area.rect().contains(Pos::new(x, y)) == Ok(true)
}

// The order is searched from its top down, as far as the first area that contains the point.
// The areas and the windows shown stay two arguments: a struct of both would be made for one call and taken apart in it.
pub fn topmost(areas: &[Rect16; 16], shown: &[WinId], x: u32, y: u32) -> Option<WinId>
    requires { Shown areas.now shown.now (length shown.now) }
    ensures { hit_of result ≡ topmost_at (frame_at areas.now) x y (nums shown.now) none }
{
    for id in shown.iter().rev() {
        if has(areas[id.0 as usize], x, y) {
            return Some(*id);
        }
    }
    None
}
