// The lines that are lent nothing.
ghost use Rattle.std.specs.Prelude.{◌≡◌, true, false, ◌*◌, ◌≤◌};
ghost use Rattle.geom.specs.Refusals.{answer_of};
ghost use Rattle.rules.specs.Group.{session_c};
ghost use Rattle.rules.specs.Calls.{Call, does};
ghost use Rattle.windows.specs.View as View;
ghost use Rattle.windows.specs.View.{group, event_in, done, Given, Meets};
ghost use Rattle.script.specs.Kind as Code;
ghost use Rattle.script.specs.Kind.{code_of};
ghost use Rattle.bare_lines.specs.Numbers.{id_of, Sound};
ghost use Rattle.answer_text.specs.Text.{answered};
ghost use Rattle.answer_text.specs.Added.{Says};
ghost use Rattle.replay.specs.Called.{Picked, plain_call, is_plain, is_lent};
ghost use Rattle.replay.specs.Ready.{Ready, Next};
ghost use Rattle.replay.specs.Told as Told;
ghost use Rattle.replay.specs.Told.{new_id, create_line, pop_line, focus_line};
ghost use Rattle.replay.specs.Played.{Pixels, Makes, Begins, Writes, PlaysAt};

use crate::player::Player;
use crate::{displays, events, lend, share, sheets, stale, state, times, waiting, who};
use answer_text::Output;
use bare_lines::numbers;
use bare_lines::numbers::Numbers;
use geom::refusal::Refusal;
use script::Line;
use script::kind::Kind;
use window::Event;
use window::ids::WinId;
use windows::Session;

// A line that hands back an answer alone.
fn plain(s: &mut Session, line: Line, ns: &Numbers) -> Result<(), Refusal>
    requires { Given s.old × Sound line ns.now × (is_plain (code_of line.kind) ≡ true) }
    ensures { Picked (plain_call (code_of line.kind) ns.now) (λ c. Meets c s.old (done s.new (answer_of result))) }
{
    let id = numbers::id(ns);
    match line.kind {
        Kind::Show => s.show(id),
        Kind::Hide => s.hide(id),
        Kind::Drop => s.drop(id),
        Kind::Mark => s.mark(id),
        Kind::Move => s.move_window(id, numbers::pos(ns, 1)),
        Kind::Begin => {
            s.begin(ns[0] == 1);
            Ok(())
        }
        Kind::Dim => {
            s.dim(ns[0] == 1);
            Ok(())
        }
        Kind::Layer => s.set_layer(id, ns[1]),
        Kind::Display => s.add_display(numbers::rect(ns, 0)),
        Kind::Raise => s.raise(id),
        Kind::Drag => s.drag(id, numbers::pos(ns, 1)),
        _ => s.route(events::event(line, ns)),
    }
}

// Those lines.
fn answered(p: &mut Player, line: Line, ns: &Numbers)
    requires { Ready p.old × Sound line ns.now × (is_plain (code_of line.kind) ≡ true) }
    ensures { (a : Pixels) → Writes line ns.now p.old a p.new a }
{
    let answer = plain(&mut p.session, line, ns);
    p.out.answer(answer);
}

// A line that is lent no pixels and no list.
pub fn call(p: &mut Player, line: Line, ns: &Numbers)
    requires { Ready p.old × Sound line ns.now × (is_lent (code_of line.kind) ≡ false) }
    ensures { (a : Pixels) → Writes line ns.now p.old a p.new a }
{
    match line.kind {
        Kind::Passed => {}
        Kind::Malformed => p.out.malformed(p.lines),
        Kind::Start => start(p, ns),
        Kind::Create => create(p),
        Kind::Pop => pop(p, ns),
        Kind::Lend | Kind::LendScreen | Kind::LendList | Kind::LendTarget | Kind::LendSheet =>
            lend::lend(p, line.kind, ns),
        Kind::Who => who::who(p, line, ns),
        Kind::Focus => focus(p),
        Kind::Busiest => times::busiest(p, line, ns),
        Kind::Share => share::share(p, ns),
        Kind::DisplayAt => displays::display_at(p, ns),
        Kind::Sheet => sheets::sheet(p, ns),
        Kind::Stale => stale::stale(p, ns),
        Kind::Waiting => waiting::waiting(p),
        Kind::Window => state::window(p, ns),
        Kind::Session => state::session(p),
        _ => answered(p, line, ns),
    }
}

// A start that document 01 accepts but whose store the program cannot lend is not called.
fn start(p: &mut Player, ns: &Numbers)
    requires { Ready p.old }
    ensures { PlaysAt Code.start ns.now p.old p.new }
{
    let c = ns[0];
    if 384000 < c && c <= 1048576 {
        return p.out.refused();
    }
    started(p, c);
}

// The store lent has 16 pixels for each of the session's C.
fn started(p: &mut Player, c: u32)
    requires { Ready p.old × (16 * session_c c ≤ 6144000) }
    ensures { Begins c p.old p.new }
{
    let (session, answer) = Session::start(c);
    p.lent = 16 * session.shared.c as usize;
    p.session = session;
    p.out.answer(answer);
}

fn write_created(made: Result<WinId, Refusal>, out: &mut Output)
    ensures { Says (answered (answer_of made) (new_id (View.id_of made))) out.old out.new }
{
    match made {
        Ok(id) => {
            out.number(0);
            out.more(id.0);
            out.end();
        }
        Err(refusal) => out.answer(refusal),
    }
}

fn create(p: &mut Player)
    requires { Ready p.old }
    ensures { Makes Call.Create (create_line (does (group p.old.session) Call.Create)) p.old p.new }
{
    let made = p.session.create();
    write_created(made, &mut p.out);
}

fn write_popped(popped: Result<Event, Refusal>, out: &mut Output)
    ensures { Says (answered (answer_of popped) (Told.event (event_in popped))) out.old out.new }
{
    match popped {
        Ok(event) => {
            out.number(0);
            events::write_event(event, out);
            out.end();
        }
        Err(refusal) => out.answer(refusal),
    }
}

fn pop(p: &mut Player, ns: &Numbers)
    requires { Ready p.old }
    ensures { Makes (Call.Pop (id_of ns.now)) (pop_line (does (group p.old.session) (Call.Pop (id_of ns.now)))) p.old p.new }
{
    let popped = p.session.pop(numbers::id(ns));
    write_popped(popped, &mut p.out);
}

fn focus(p: &mut Player)
    requires { Ready p.old }
    ensures { Next (focus_line (group p.old.session)) p.old p.old.session p.new }
{
    let focus = p.session.focus();
    p.out.number(0);
    p.out.more(focus.0);
    p.out.end();
}
