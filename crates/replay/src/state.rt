// The lines that ask how a window and how the session stand.
ghost use Rattle.std.specs.Prelude.{◌≡◌, cond, [], ◌∷◌};
ghost use Rattle.rules.specs.State.{window_state, session_state};
ghost use Rattle.windows.specs.View.{group, window_in};
ghost use Rattle.bare_lines.specs.Numbers.{id_of};
ghost use Rattle.answer_text.specs.Text.{number, flag};
ghost use Rattle.answer_text.specs.Added.{Says};
ghost use Rattle.replay.specs.Told.{window_line, session_line};
ghost use Rattle.replay.specs.inner.State.{standing_line, stands_line};
ghost use Rattle.replay.specs.Ready.{Ready, Next};

use crate::player::Player;
use answer_text::Output;
use bare_lines::numbers::Numbers;
use bare_lines::{geometry, numbers};
use geom::refusal::Refusal;
use windows::{SessionState, WindowState};

// What stands behind the rectangle.
fn write_rest(state: WindowState, out: &mut Output)
    ensures { Says (flag state.shown ∷ number state.place ∷ number state.layer ∷ flag state.maximised ∷ flag state.marked ∷ number state.queued ∷ flag state.moved ∷ []) out.old out.new }
{
    out.more(state.shown);
    out.more(state.place);
    out.more(state.layer);
    out.more(state.maximised);
    out.more(state.marked);
    out.more(state.queued);
    out.more(state.moved);
}

fn write_window(state: Result<WindowState, Refusal>, out: &mut Output)
    ensures { Says (standing_line (window_in state)) out.old out.new }
{
    match state {
        Ok(state) => {
            out.number(0);
            geometry::write_rect(state.rect, out);
            write_rest(state, out);
            out.end();
        }
        Err(refusal) => out.answer(refusal),
    }
}

pub fn window(p: &mut Player, ns: &Numbers)
    requires { Ready p.old }
    ensures { Next (window_line (window_state (group p.old.session) (id_of ns.now))) p.old p.old.session p.new }
{
    let state = p.session.window(numbers::id(ns));
    write_window(state, &mut p.out);
}

// 0 with no walk, 1 with one that is not full, 2 with a full one.
fn walk_of(walk: bool, full: bool) -> u32
    ensures { result ≡ cond walk (cond full 2 1) 0 }
{
    match (walk, full) {
        (false, _) => 0,
        (true, false) => 1,
        (true, true) => 2,
    }
}

fn write_session(state: SessionState, out: &mut Output)
    ensures { Says (stands_line state) out.old out.new }
{
    out.number(0);
    out.more(state.c);
    out.more(state.shown);
    out.more(state.focus.0);
    out.more(state.grab.0);
    out.more(state.dimmed);
    out.more(state.owed);
    out.more(walk_of(state.walk, state.full));
    out.more(state.left);
    out.more(state.displays);
    out.end();
}

pub fn session(p: &mut Player)
    requires { Ready p.old }
    ensures { Next (session_line (session_state (group p.old.session))) p.old p.old.session p.new }
{
    let state = p.session.state();
    write_session(state, &mut p.out);
}
