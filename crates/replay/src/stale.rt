// The line that asks what a redraw or the next portion would write.
ghost use Rattle.rules.specs.Stale.{stale};
ghost use Rattle.windows.specs.View.{group};
ghost use Rattle.bare_lines.specs.Numbers.{num, rect_at};
ghost use Rattle.replay.specs.Told.{stale_line};
ghost use Rattle.replay.specs.Ready.{Ready, Next};

use crate::player::Player;
use bare_lines::numbers::Numbers;
use bare_lines::{geometry, numbers};

pub fn stale(p: &mut Player, ns: &Numbers)
    requires { Ready p.old }
    ensures { Next (stale_line (stale (group p.old.session) (num ns.now 0) (rect_at ns.now 1))) p.old p.old.session p.new }
{
    let found = p.session.stale(ns[0], numbers::rect(ns, 1));
    geometry::found(found, &mut p.out);
}
