// A window's rows at a new width and height, in place: there is no second buffer.
ghost use Rattle.std.specs.Prelude.{◌≡◌, ◌++◌, ◌+◌, ◌-◌, ◌*◌, ◌≤◌, min, length, replicate};
ghost use Rattle.scanline.specs.Pixels.{write_rows, part, resized_at};
ghost use Rattle.winbuf.specs.inner.Rows.{resized};

use scanline::row::fill_part;
use scanline::shift::{move_down, move_up};

// n rows of w0 pixels become rows of w1, no more than w0: of each row the first w1.
pub fn narrow(px: &mut [u32], w0: u16, w1: u16, n: usize)
    requires { (w1 ≤ w0) × (n * w0 ≤ length px.old) }
    ensures { px.new ≡ write_rows n (λ r. r * w1) (λ r. part (r * w0) w1 px.old) px.old }
{
    for r in 0..n {
        move_down(px, r * w1 as usize, r * w0 as usize, w1);
    }
}

// n rows of w0 pixels become rows of w1, no less than w0: each row and then zeros.
pub fn widen(px: &mut [u32], w0: u16, w1: u16, n: usize)
    requires { (w0 ≤ w1) × (n * w1 ≤ length px.old) }
    ensures { px.new ≡ write_rows n (λ r. r * w1) (λ r. part (r * w0) w0 px.old ++ replicate (w1 - w0) 0) px.old }
{
    // the last row first: no row is written over before it has moved
    for r in (0..n).rev() {
        let at = r * w1 as usize;
        move_up(px, at, r * w0 as usize, w0);
        fill_part(px, at + w0 as usize, w1 - w0, 0);
    }
}

// n rows of w0 pixels become rows of w1: what both widths hold, and then zeros.
pub fn set_width(px: &mut [u32], w0: u16, w1: u16, n: usize)
    requires { (n * w0 ≤ length px.old) × (n * w1 ≤ length px.old) }
    ensures { px.new ≡ write_rows n (λ r. r * w1) (λ r. part (r * w0) (min w1 w0) px.old ++ replicate (w1 - min w1 w0) 0) px.old }
{
    if w1 < w0 {
        narrow(px, w0, w1, n)
    } else if w0 < w1 {
        widen(px, w0, w1, n)
    }
}

// A window's pixels as it goes from w0 by h0 to w1 by h1: what both hold stays, and all else is 0.
pub fn resize_rows(px: &mut [u32], w0: u16, h0: usize, w1: u16, h1: usize)
    requires { (w0 * h0 ≤ length px.old) × (w1 * h1 ≤ length px.old) }
    ensures { px.new ≡ resized (length px.old) w0 h0 w1 h1 px.old }
{
    let n = h1.min(h0);
    set_width(px, w0, w1, n);
    let used = n * w1 as usize;
    px[used..].fill(0);
}

// The same in a store, where the window's c pixels begin at `base`.
pub fn resize_store(
    store: &mut [u32],
    base: usize,
    c: usize,
    w0: u16,
    h0: usize,
    w1: u16,
    h1: usize,
)
    requires { (base + c ≤ length store.old) × (w0 * h0 ≤ c) × (w1 * h1 ≤ c) }
    ensures { store.new ≡ resized_at base c w0 h0 w1 h1 store.old }
{
    resize_rows(&mut store[base..base + c], w0, h0, w1, h1)
}
