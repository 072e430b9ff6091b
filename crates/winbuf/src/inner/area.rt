// The rows of a rectangle of pixels: filled, or set from lent data. Each function returns how many pixels differ
// afterwards.
ghost use Rattle.std.specs.Prelude.{◌≡◌, ◌+◌, ◌*◌, ◌/◌, ◌≤◌, min, length, take, replicate};
ghost use Rattle.scanline.specs.Pixels.{write_rows, part};
ghost use Rattle.scanline.specs.inner.Rows.{Fit, Inside, Counted};

use scanline::row::{fill_part, set_part};

// n rows of w pixels become `v`.
pub fn fill_rows(px: &mut [u32], at: usize, pitch: usize, w: u16, n: usize, v: u32) -> usize
    requires { Fit (length px.old) at pitch w n × (w ≤ pitch) }
    ensures { Counted (write_rows n (λ r. at + r * pitch) (λ r. replicate w v) px.old) px.old px.new result }
{
    let mut altered: usize = 0;
    for r in 0..n {
        altered += fill_part(px, at + r * pitch, w, v);
    }
    altered
}

// How many of n rows take a full chunk of `stride` data: none where the stride is 0.
fn full_chunks(len: usize, stride: usize, n: usize) -> usize
    ensures { result ≡ min n (len / stride) }
{
    if stride == 0 {
        return 0;
    }
    n.min(len / stride)
}

// Row r of n takes w of the data, from r * stride on. Where a row lies is a product with r, in the data too, and no sum
// carried from row to row: so the compiler tests once for all rows, and not for each, whether data and pixels overlap.
fn full_rows(
    px: &mut [u32],
    at: usize,
    pitch: usize,
    src: &[u32],
    stride: usize,
    w: u16,
    n: usize,
) -> usize
    requires { Fit (length px.old) at pitch w n × (w ≤ pitch) × Fit (length src.now) 0 stride w n }
    ensures { Counted (write_rows n (λ r. at + r * pitch) (λ r. part (r * stride) w src.now) px.old) px.old px.new result }
{
    let mut altered: usize = 0;
    for r in 0..n {
        altered += set_part(px, at + r * pitch, src, r * stride, w);
    }
    altered
}

// Row r of n takes chunk r of the data, cut to w: chunks of `stride`, the last one may be short, and then none.
pub fn blit_rows(
    px: &mut [u32],
    at: usize,
    pitch: usize,
    src: &[u32],
    stride: usize,
    w: u16,
    n: usize,
) -> usize
    requires { Fit (length px.old) at pitch w n × (w ≤ pitch) }
    ensures { Counted (write_rows n (λ r. at + r * pitch) (λ r. take w (part (r * stride) stride src.now)) px.old) px.old px.new result }
{
    let full = full_chunks(src.len(), stride, n);
    let m = stride.min(w as usize) as u16;
    let altered = full_rows(px, at, pitch, src, stride, m, full);
    if full == n {
        return altered;
    }
    // one more row takes what is left of the data, a short chunk or nothing; the rows after it take nothing
    let from = full * stride;
    let rest = (src.len() - from).min(m as usize) as u16;
    altered + set_part(px, at + full * pitch, src, from, rest)
}

// An area of a window becomes `v`. Here and below, the area's numbers are worked out by the caller for this one call: a
// struct of them would be made there and taken apart here.
pub fn fill_area(
    px: &mut [u32],
    base: usize,
    pitch: usize,
    left: usize,
    top: usize,
    w: u16,
    n: usize,
    v: u32,
) -> usize
    requires { Inside (length px.old) base pitch left top w n }
    ensures { Counted (write_rows n (λ r. base + (top + r) * pitch + left) (λ r. replicate w v) px.old) px.old px.new result }
{
    fill_rows(px, base + top * pitch + left, pitch, w, n, v)
}

// An area of a window takes the chunks of the data.
pub fn blit_area(
    px: &mut [u32],
    base: usize,
    pitch: usize,
    left: usize,
    top: usize,
    src: &[u32],
    stride: usize,
    w: u16,
    n: usize,
) -> usize
    requires { Inside (length px.old) base pitch left top w n }
    ensures { Counted (write_rows n (λ r. base + (top + r) * pitch + left) (λ r. take w (part (r * stride) stride src.now)) px.old) px.old px.new result }
{
    blit_rows(px, base + top * pitch + left, pitch, src, stride, w, n)
}
