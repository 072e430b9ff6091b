// The rows of the target, in whole numbers: no float is computed for a pixel. Along a row columns are counted in 16 bits, as everywhere.
ghost use Rattle.std.specs.Prelude.{◌≡◌, ◌+◌, ◌*◌, ◌≤◌, length};
ghost use Rattle.std.proofs.lemmas.List.Edits.{sets};
ghost use Rattle.look.specs.Quarters.{place_quarters};
ghost use Rattle.look.specs.View.{line, shown};
ghost use Rattle.look.specs.inner.Steps.{Columns, Along, Stepping, stepped, look_row};

use crate::Steps;
use scanline::row::{copy_part, fill_part};

// How many of the target's tw columns lie in the window: they are the first ones.
fn columns(w: u16, x: u64, step: u64, tw: u16) -> u16
    requires { (1 ≤ step) × (step ≤ 16) }
    ensures { Columns w x step tw result }
{
    let end = 4 * w as u64;
    if end <= x {
        return 0;
    }
    let n = (end - x + (step - 1)) / step;
    if n < tw as u64 { n as u16 } else { tw }
}

// n pixels of the window's row that begins at `from`, the first at the place x and each `step` quarters after the one before.
fn step_part(target: &mut [u32], at: usize, store: &[u32], from: usize, n: u16, x: u64, step: u64)
    requires { Along (length target.old) at (length store.now) from n x step }
    ensures { target.new ≡ sets target.old at (line (stepped store.now from x step) n) }
{
    for i in 0..n {
        let place = x + i as u64 * step;
        target[at + i as usize] = store[from + (place / 4) as usize];
    }
}

// The same; with the factor 1 the pixels lie side by side.
fn take_part(target: &mut [u32], at: usize, store: &[u32], from: usize, n: u16, x: u64, step: u64)
    requires { Along (length target.old) at (length store.now) from n x step }
    ensures { target.new ≡ sets target.old at (line (stepped store.now from x step) n) }
{
    if n > 0 {
        if step == 4 {
            copy_part(target, at, store, from + (x / 4) as usize, n)
        } else {
            step_part(target, at, store, from, n, x, step)
        }
    }
}

// A row of the target, tw wide: n pixels of the window's row, and 0 to its right.
fn look_row(
    target: &mut [u32],
    at: usize,
    tw: u16,
    store: &[u32],
    from: usize,
    n: u16,
    x: u64,
    step: u64,
)
    requires { Along (length target.old) at (length store.now) from n x step × (n ≤ tw) × (at + tw ≤ length target.old) }
    ensures { target.new ≡ sets target.old at (look_row store.now from x step n tw) }
{
    take_part(target, at, store, from, n, x, step);
    fill_part(target, at + n as usize, tw - n, 0);
}

// All rows. One that lies below the window has none of its pixels.
pub fn look_rows(
    target: &mut [u32],
    tw: u16,
    th: usize,
    store: &[u32],
    base: usize,
    w: u16,
    h: u16,
    t: Steps,
)
    requires { Stepping t × (length target.old ≡ tw * th) × (th ≤ 32767) × (base + w * h ≤ length store.now) }
    ensures { target.new ≡ shown (place_quarters t.x t.step) (place_quarters t.y t.step) (record { w = w; h = h; tw = tw; th = th }) base store.now }
{
    let n = columns(w, t.x, t.step, tw);
    for j in 0..th {
        let at = j * tw as usize;
        let row = (t.y + j as u64 * t.step) / 4;
        if row < h as u64 {
            look_row(
                target,
                at,
                tw,
                store,
                base + row as usize * w as usize,
                n,
                t.x,
                t.step,
            );
        } else {
            fill_part(target, at, tw, 0);
        }
    }
}
