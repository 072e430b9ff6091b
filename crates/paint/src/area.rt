// An area of the screen takes an area of a window: row after row, as it is or dimmed.
ghost use Rattle.std.specs.Prelude.{◌≡◌, map, ◌+◌, ◌*◌, length};
ghost use Rattle.scanline.specs.Pixels.{write_rows, part};
ghost use Rattle.scanline.specs.inner.Rows.{Fit, Inside};
ghost use Rattle.paint.specs.Shade.{tone};

use crate::row::{TABLE, draw_part};

// n rows of w pixels, from rows `step` apart in `src`, while dimming is on (`DIM`) through the table.
fn draw_rows<const DIM: bool>(
    px: &mut [u32],
    at: usize,
    pitch: usize,
    src: &[u32],
    from: usize,
    step: usize,
    w: u16,
    n: usize,
)
    requires { Fit (length px.old) at pitch w n × Fit (length src.now) from step w n }
    ensures { px.new ≡ write_rows n (λ r. at + r * pitch) (λ r. map (tone DIM) (part (from + r * step) w src.now)) px.old }
{
    let table = TABLE;
    for r in 0..n {
        draw_part::<DIM>(px, at + r * pitch, src, from + r * step, w, &table);
    }
}

// The window's pixels begin at `base` of the store. The numbers of both areas are the caller's own, worked out for this
// one call: a struct of them would be made there and taken apart here. Whether dimming is on is asked once, and not for
// each row.
pub fn draw_area(
    px: &mut [u32],
    pitch: usize,
    left: usize,
    top: usize,
    src: &[u32],
    base: usize,
    step: usize,
    x: usize,
    y: usize,
    w: u16,
    n: usize,
    dim: bool,
)
    requires { Inside (length px.old) 0 pitch left top w n × Inside (length src.now) base step x y w n }
    ensures { px.new ≡ write_rows n (λ r. (top + r) * pitch + left) (λ r. map (tone dim) (part (base + (y + r) * step + x) w src.now)) px.old }
{
    let at = top * pitch + left;
    let from = base + y * step + x;
    if dim {
        draw_rows::<true>(px, at, pitch, src, from, step, w, n)
    } else {
        draw_rows::<false>(px, at, pitch, src, from, step, w, n)
    }
}
