// The line that asks which display a position is on.
ghost use Rattle.std.specs.Prelude.{◌≡◌};
ghost use Rattle.geom.specs.Refusals.{answer_of};
ghost use Rattle.display.specs.Represents.{located_of};
ghost use Rattle.rules.specs.DisplayAt.{display_at};
ghost use Rattle.windows.specs.View.{group, for_pos};
ghost use Rattle.bare_lines.specs.Numbers.{num};
ghost use Rattle.answer_text.specs.Text.{answered};
ghost use Rattle.answer_text.specs.Added.{Says};
ghost use Rattle.replay.specs.Told as Told;
ghost use Rattle.replay.specs.Told.{display_line};
ghost use Rattle.replay.specs.Ready.{Ready, Next};

use crate::player::Player;
use answer_text::Output;
use bare_lines::numbers::Numbers;
use bare_lines::{geometry, numbers};
use display::Located;
use geom::refusal::Refusal;

fn write_located(located: Located, out: &mut Output)
    ensures { Says (Told.located (located_of located)) out.old out.new }
{
    match located {
        Located::On(rect) => {
            out.word(b"on");
            geometry::write_rect(rect, out);
        }
        Located::Closest(rect) => {
            out.word(b"closest");
            geometry::write_rect(rect, out);
        }
    }
}

fn write_for_pos(found: Result<Located, Refusal>, out: &mut Output)
    ensures { Says (answered (answer_of found) (Told.located (located_of (for_pos found).located))) out.old out.new }
{
    match found {
        Ok(located) => {
            out.number(0);
            write_located(located, out);
            out.end();
        }
        Err(refusal) => out.answer(refusal),
    }
}

pub fn display_at(p: &mut Player, ns: &Numbers)
    requires { Ready p.old }
    ensures { Next (display_line (display_at (group p.old.session) (num ns.now 0) (num ns.now 1))) p.old p.old.session p.new }
{
    let found = p.session.get_display_for_pos(numbers::pos(ns, 0));
    write_for_pos(found, &mut p.out);
}
