// The events of a script: those that a line routes, and the text of those that are popped.
ghost use Rattle.std.specs.Prelude.{◌≡◌, true, [], ◌∷◌};
ghost use Rattle.std.proofs.Math.Option.{some};
ghost use Rattle.rules.specs.Calls.{Call};
ghost use Rattle.script.specs.Kind.{code_of};
ghost use Rattle.bare_lines.specs.Numbers.{Sound};
ghost use Rattle.answer_text.specs.Text.{number, word};
ghost use Rattle.answer_text.specs.Added.{Says};
ghost use Rattle.replay.specs.Called.{plain_call, routes};
ghost use Rattle.replay.specs.Told.{event_pieces};

use answer_text::Output;
use bare_lines::numbers::Numbers;
use script::Line;
use script::kind::Kind;
use window::Event;

// The event that a line routes.
pub fn event(line: Line, ns: &Numbers) -> Event
    requires { Sound line ns.now × (routes (code_of line.kind) ≡ true) }
    ensures { plain_call (code_of line.kind) ns.now ≡ some (Call.Route result) }
{
    let x = ns[0];
    let y = ns[1];
    match line.kind {
        Kind::KeyDown => Event::KeyDown(x),
        Kind::KeyUp => Event::KeyUp(x),
        Kind::KeyFire => Event::KeyFire(x),
        Kind::Text => Event::Text(x),
        Kind::MouseMove => Event::MouseMove { x, y, dx: 0, dy: 0 },
        Kind::MouseDown => Event::MouseDown {
            x,
            y,
            button: ns[2] as u8,
        },
        Kind::MouseUp => Event::MouseUp {
            x,
            y,
            button: ns[2] as u8,
        },
        Kind::MouseClick => Event::MouseClick {
            x,
            y,
            button: ns[2] as u8,
            count: ns[3] as u8,
        },
        _ => Event::Resize,
    }
}

fn write_key(name: &[u8], v: u32, out: &mut Output)
    ensures { Says (word name.now ∷ number v ∷ []) out.old out.new }
{
    out.word(name);
    out.more(v);
}

fn write_point(name: &[u8], x: u32, y: u32, out: &mut Output)
    ensures { Says (word name.now ∷ number x ∷ number y ∷ []) out.old out.new }
{
    write_key(name, x, out);
    out.more(y);
}

// A point and a button.
fn write_press(name: &[u8], x: u32, y: u32, b: u8, out: &mut Output)
    ensures { Says (word name.now ∷ number x ∷ number y ∷ number b ∷ []) out.old out.new }
{
    write_point(name, x, y, out);
    out.more(b);
}

// The name of an event and its values.
pub fn write_event(e: Event, out: &mut Output)
    ensures { Says (event_pieces e) out.old out.new }
{
    match e {
        Event::Resize => out.word(b"Resize"),
        Event::KeyDown(v) => write_key(b"KeyDown", v, out),
        Event::KeyUp(v) => write_key(b"KeyUp", v, out),
        Event::KeyFire(v) => write_key(b"KeyFire", v, out),
        Event::Text(v) => write_key(b"Text", v, out),
        Event::MouseMove { x, y, dx, dy } => {
            write_point(b"MouseMove", x, y, out);
            out.signed(dx);
            out.signed(dy);
        }
        Event::MouseDown { x, y, button } => write_press(b"MouseDown", x, y, button, out),
        Event::MouseClick {
            x,
            y,
            button,
            count,
        } => {
            write_press(b"MouseClick", x, y, button, out);
            out.more(count);
        }
        Event::MouseUp { x, y, button } => write_press(b"MouseUp", x, y, button, out),
    }
}
