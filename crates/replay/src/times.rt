// The line of event times.
ghost use Rattle.std.specs.Prelude.{take};
ghost use Rattle.busiest.specs.Busiest.{second_of, busiest};
ghost use Rattle.bare_lines.specs.Numbers.{Sound};
ghost use Rattle.answer_text.specs.Added.{Says};
ghost use Rattle.replay.specs.Told.{busiest_line};
ghost use Rattle.replay.specs.Ready.{Ready, Next};

use crate::player::Player;
use answer_text::Output;
use bare_lines::numbers::Numbers;
use busiest::Second;
use geom::refusal::Refusal;
use script::Line;

fn write_second(second: Result<Second, Refusal>, out: &mut Output)
    ensures { Says (busiest_line (second_of second)) out.old out.new }
{
    match second {
        Ok(second) => {
            out.number(0);
            out.more(second.count);
            out.more(second.place);
            out.end();
        }
        Err(refusal) => out.answer(refusal),
    }
}

// The numbers of the line are the times.
pub fn busiest(p: &mut Player, line: Line, ns: &Numbers)
    requires { Ready p.old × Sound line ns.now }
    ensures { Next (busiest_line (busiest (take line.count ns.now))) p.old p.old.session p.new }
{
    let second = busiest::busiest(&ns[..line.count]);
    write_second(second, &mut p.out);
}
