// The line that asks how much of a window is in view.
ghost use Rattle.std.specs.Prelude.{◌≡◌, [], ◌∷◌};
ghost use Rattle.rules.specs.Share.{share};
ghost use Rattle.windows.specs.View.{group, in_view};
ghost use Rattle.bare_lines.specs.Numbers.{id_of};
ghost use Rattle.answer_text.specs.Text.{number, answered};
ghost use Rattle.answer_text.specs.Added.{Says};
ghost use Rattle.replay.specs.Told.{share_line};
ghost use Rattle.replay.specs.Ready.{Ready, Next};

use crate::player::Player;
use answer_text::Output;
use bare_lines::numbers;
use bare_lines::numbers::Numbers;
use geom::refusal::Refusal;
use windows::InView;

fn write_share(found: Result<InView, Refusal>, out: &mut Output)
    ensures { Says (answered (in_view found).answer (number (in_view found).percent ∷ number (in_view found).remainder ∷ [])) out.old out.new }
{
    match found {
        Ok(share) => {
            out.number(0);
            out.more(share.percent);
            out.more(share.remainder);
            out.end();
        }
        Err(refusal) => out.answer(refusal),
    }
}

pub fn share(p: &mut Player, ns: &Numbers)
    requires { Ready p.old }
    ensures { Next (share_line (share (group p.old.session) (id_of ns.now))) p.old p.old.session p.new }
{
    let found = p.session.share(numbers::id(ns));
    write_share(found, &mut p.out);
}
