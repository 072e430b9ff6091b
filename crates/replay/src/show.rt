// The lines that show pixels of the screen or of a window, and call nothing.
ghost use Rattle.std.specs.Prelude.{◌+◌, ◌≤◌, length, take, drop, ◌⊎◌, []};
ghost use Rattle.windows.specs.View.{group, Given};
ghost use Rattle.script.specs.Kind.{code_of};
ghost use Rattle.bare_lines.specs.Numbers.{id_of, Sound};
ghost use Rattle.answer_text.specs.Text.{beyond, line as line_of, numbers as numbers_of};
ghost use Rattle.answer_text.specs.Added.{Says};
ghost use Rattle.replay.specs.Called.{OnShow};
ghost use Rattle.replay.specs.Told.{pixels_line};
ghost use Rattle.replay.specs.inner.Shown.{ShowsScreen};

use answer_text::{Output, picture};
use bare_lines::numbers;
use bare_lines::numbers::Numbers;
use script::Line;
use script::kind::Kind;
use std::rt::Files;
use windows::Session;

// A line of 0 and these pixels.
fn write_pixels(pixels: &[u32], out: &mut Output)
    ensures { Says (line_of 0 (numbers_of pixels.now)) out.old out.new }
{
    out.number(0);
    out.all(pixels);
    out.end();
}

// The same of n pixels from a place on.
fn write_part(pixels: &[u32], from: usize, n: usize, out: &mut Output)
    requires { from + n ≤ length pixels.now }
    ensures { Says (line_of 0 (numbers_of (take n (drop from pixels.now)))) out.old out.new }
{
    write_pixels(&pixels[from..from + n], out);
}

// A picture in a file. What waits is handed over before, so that its answer comes behind it.
fn write_picture<R: Files>(files: &R, name: &[u8], w: u32, h: u32, pixels: &[u32], out: &mut Output)
    ensures { Says (line_of 0 []) out.old out.new ⊎ Says beyond out.old out.new }
{
    out.flush();
    if picture::write(files, name, w, h, pixels) {
        return out.answer(Ok(()));
    }
    out.refused();
}

// The lines screen and picture.
pub fn screen<R: Files>(
    files: &R,
    line: Line,
    ns: &Numbers,
    name: &[u8; 64],
    screen: &[u32; 3072000],
    out: &mut Output,
)
    requires { Sound line ns.now × OnShow (code_of line.kind) }
    ensures { ShowsScreen (code_of line.kind) ns.now screen.now out.old out.new }
{
    let n = numbers::size(ns[0], ns[1]);
    if 3072000 < n {
        return out.refused();
    }
    let shown = &screen[..n as usize];
    match line.kind {
        Kind::Screen => write_pixels(shown, out),
        _ => write_picture(files, &name[..line.name], ns[0], ns[1], shown, out),
    }
}

// The line pixels: the window's pixels begin at its number times C in the store.
pub fn pixels(s: &Session, ns: &Numbers, store: &[u32], lent: usize, out: &mut Output)
    requires { Given s.now × (lent ≤ length store.now) }
    ensures { Says (pixels_line (group s.now) (id_of ns.now) lent store.now) out.old out.new }
{
    let id = numbers::id(ns);
    let c = s.shared.c as usize;
    let Ok(rect) = s.rect_of(id) else {
        return out.answer(Ok(()));
    };
    if lent < 16 * c {
        return out.answer(Ok(()));
    }
    let from = id.0 as usize * c;
    let n = rect.dims.w as usize * rect.dims.h as usize;
    write_part(store, from, n, out);
}
