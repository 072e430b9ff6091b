// The line that routes an event and tells who took it.
ghost use Rattle.std.specs.Prelude.{◌≡◌};
ghost use Rattle.geom.specs.Refusals.{answer_of};
ghost use Rattle.rules.specs.Calls.{Call, does};
ghost use Rattle.rules.specs.Taker.{taker};
ghost use Rattle.windows.specs.View.{group, taker_in};
ghost use Rattle.script.specs.Kind as Code;
ghost use Rattle.script.specs.Kind.{code_of};
ghost use Rattle.bare_lines.specs.Numbers.{Sound};
ghost use Rattle.answer_text.specs.Added.{Says};
ghost use Rattle.replay.specs.Called.{who_event};
ghost use Rattle.replay.specs.Told.{taker_pieces, who_line};
ghost use Rattle.replay.specs.Ready.{Ready};
ghost use Rattle.replay.specs.Played.{Makes};

use crate::player::Player;
use answer_text::Output;
use bare_lines::numbers::Numbers;
use geom::refusal::Refusal;
use script::Line;
use window::Event;
use windows::Taken;

// How nobody is written.
const NOBODY: u32 = 16;

// The event of the line's numbers: the first is the event's kind in CALL-SCRIPT.md, of which 1 is a Resize.
fn event(line: Line, ns: &Numbers) -> Event
    requires { Sound line ns.now × (code_of line.kind ≡ Code.who) }
    ensures { result ≡ who_event ns.now }
{
    let x = ns[1];
    let y = ns[2];
    let button = ns[3] as u8;
    match ns[0] {
        2 => Event::KeyDown(x),
        3 => Event::KeyUp(x),
        4 => Event::KeyFire(x),
        5 => Event::Text(x),
        6 => Event::MouseMove { x, y, dx: 0, dy: 0 },
        7 => Event::MouseDown { x, y, button },
        8 => Event::MouseClick {
            x,
            y,
            button,
            count: ns[4] as u8,
        },
        9 => Event::MouseUp { x, y, button },
        _ => Event::Resize,
    }
}

fn write_taker(taker: Option<Taken>, out: &mut Output)
    ensures { Says (taker_pieces (taker_in (Ok taker))) out.old out.new }
{
    match taker {
        Some(taken) => {
            out.more(taken.id.0);
            out.more(taken.x);
            out.more(taken.y);
        }
        None => {
            out.more(NOBODY);
            out.more(0u32);
            out.more(0u32);
        }
    }
}

fn write_routed(routed: Result<Option<Taken>, Refusal>, out: &mut Output)
    ensures { Says (who_line (answer_of routed) (taker_in routed)) out.old out.new }
{
    match routed {
        Ok(taker) => {
            out.number(0);
            write_taker(taker, out);
            out.end();
        }
        Err(refusal) => out.answer(refusal),
    }
}

pub fn who(p: &mut Player, line: Line, ns: &Numbers)
    requires { Ready p.old × Sound line ns.now × (code_of line.kind ≡ Code.who) }
    ensures { Makes (Call.Route (who_event ns.now)) (who_line (does (group p.old.session) (Call.Route (who_event ns.now))).answer (taker (group p.old.session) (who_event ns.now))) p.old p.new }
{
    let routed = p.session.route_to(event(line, ns));
    write_routed(routed, &mut p.out);
}
