// The line that asks which windows have something to pop.
ghost use Rattle.windows.specs.View.{group};
ghost use Rattle.replay.specs.Told.{waiting_line};
ghost use Rattle.replay.specs.Ready.{Ready, Next};

use crate::player::Player;

pub fn waiting(p: &mut Player)
    requires { Ready p.old }
    ensures { Next (waiting_line (group p.old.session)) p.old p.old.session p.new }
{
    let windows = p.session.waiting();
    p.out.number(0);
    p.out.more(windows);
    p.out.end();
}
