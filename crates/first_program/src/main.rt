// A first program: a panel of 2 by 2 pixels on a screen of 3 by 2 is filled, drawn and pressed.
//
// `check::expect` requires that its argument is true: each check below is proved, from the contracts of the calls
// alone.
#![tactic(auto)]

ghost use Rattle.std.specs.Prelude.{◌≡◌};
ghost use Rattle.windows.specs.View.{event_in};
ghost use Rattle.first_program.specs.inner.Press.{is_press};

use geom::refusal::Refusal;
use geom::{Dims, Rect};
use window::Event;
use window::ids::WinId;
use windows::Session;

fn main() {
    // 4 pixels for each of the 16 windows, and those of the screen.
    let mut store = [0u32; 64];
    let mut screen = [5u32; 6];

    let (mut session, begun) = Session::start(4);
    check::expect(begun.is_ok());
    // A window takes the smallest unused id, here 0.
    let panel = WinId(0);
    check::expect(session.create().is_ok());
    let size = Dims::new(2, 2);
    check::expect(session.resize(panel, size, &mut store).is_ok());
    check::expect(session.show(panel).is_ok());

    // The panel's pixels become 7 in the store, and by the redraw on the screen.
    let whole = Rect::new(0, 0, 2, 2);
    check::expect(session.fill(panel, whole, 7, &mut store) == Ok(4));
    check::expect(session.mark(panel).is_ok());
    check::expect(session.redraw(false, 3, 2, &store, &mut screen).is_ok());
    check::expect(screen[1] == 7);
    check::expect(screen[2] == 5);

    // The press goes to the panel, whose first event is the resize.
    let press = Event::MouseDown {
        x: 1,
        y: 1,
        button: 1,
    };
    check::expect(session.route(press).is_ok());
    check::expect(session.pop(panel).is_ok());
    check::expect(is_press(session.pop(panel), 1, 1));
    scanlines();
}

// A scanline of bare pixels, 3 by 2: row 1 from column 1 on. Its 9 pixels are cut to two. It is written as a part of
// the pixels, and what they hold afterwards is known.
fn scanlines() {
    let mut pixels = [5u32; 6];
    let range = winbuf::scanline_range(pixels.len(), 3, 2, 1, 1, 9);
    check::expect(range.is_ok());
    let part = &mut pixels[range.unwrap()];
    part[1] = 7;
    check::expect(pixels[4] == 5);
    check::expect(pixels[5] == 7);
}

// Whether a popped event is a press at the point.
fn is_press(popped: Result<Event, Refusal>, px: u32, py: u32) -> bool
    ensures { result ≡ is_press (event_in popped) px py }
{
    matches!(popped, Ok(Event::MouseDown { x, y, .. }) if x == px && y == py)
}
