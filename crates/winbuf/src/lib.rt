// Pixels in a lent slice: document 01, "Pixels". Translated from winbuf.rs, with its names.
//
// The calls here take any arguments and ask questions 5 and 13. Our own crates, which know what they lend, call
// `inner`. A scanline is given by the picture's width and height, a line, an offset and a length: the five numbers of
// document 01, which no call keeps.
#![tactic(auto)]

ghost use Rattle.std.specs.Prelude.{◌≡◌, ◌≤◌, IfOk};
ghost use Rattle.winbuf.specs.Pixels.{line_start, scanline_range, scanline, fill_scanline, set_scanline, region};
ghost use Rattle.winbuf.specs.Bare.{Gives, Hands, altered_of, range_of, region_start};

use geom::inner::small::small_area;
use geom::refusal::Refusal;
use inner::place::line_place;
use inner::region::region_fits;
use scanline::row::{fill_part, set_part};
use std::ops::Range;

pub mod inner;

// Where a scanline, cut to the width, lies in pixels of which there are `total`. Who writes through `&mut
// pixels[range]` knows what `pixels` hold afterwards.
#[tactic(auto, unfolding(crate::specs::Pixels::scanline_range))]
pub fn scanline_range(
    total: usize,
    width: u32,
    height: u32,
    line: u32,
    ofs: u32,
    len: u32,
) -> Result<Range<usize>, Refusal>
    ensures range { range_of result ≡ scanline_range total width height line ofs len }
    ensures within { IfOk result (λ r. (r.start ≤ r.end) × (r.end ≤ total)) }
{
    match line_place(total, width, height, line, ofs, len)? {
        Some(part) => Ok(part.start..part.start + part.count as usize),
        None if width == 0 => Ok(0..0),
        None => Err(Refusal::OutsidePixels),
    }
}

// The pixels of a scanline: a part of `pixels`.
pub fn scanline_rgn<'a>(
    pixels: &'a [u32],
    width: u32,
    height: u32,
    line: u32,
    ofs: u32,
    len: u32,
) -> Result<&'a [u32], Refusal>
    ensures { Hands (scanline pixels.now width height line ofs len) (line_start width line ofs) pixels.entry result }
{
    let range = scanline_range(pixels.len(), width, height, line, ofs, len)?;
    Ok(&pixels[range])
}

// Returns how many pixels differ afterwards. A line or an offset beside the picture does nothing, here and in
// `set_scanline`.
#[tactic(auto, using(scanline::proofs::rows::Altered::altered_same), unfolding(crate::specs::Pixels::line_written))]
pub fn fill_scanline(
    pixels: &mut [u32],
    width: u32,
    height: u32,
    line: u32,
    ofs: u32,
    len: u32,
    value: u32,
) -> Result<usize, Refusal>
    ensures { Gives (fill_scanline pixels.old width height line ofs len value) (altered_of result) pixels.new }
{
    let Some(part) = line_place(pixels.len(), width, height, line, ofs, len)? else {
        return Ok(0);
    };
    Ok(fill_part(pixels, part.start, part.count, value))
}

// The same; ends with the shorter of the scanline and the data.
#[tactic(auto, using(scanline::proofs::rows::Altered::altered_same), unfolding(crate::specs::Pixels::line_written))]
pub fn set_scanline(
    pixels: &mut [u32],
    width: u32,
    height: u32,
    line: u32,
    ofs: u32,
    len: u32,
    data: &[u32],
) -> Result<usize, Refusal>
    ensures { Gives (set_scanline pixels.old width height line ofs len «data».now) (altered_of result) pixels.new }
{
    match line_place(pixels.len(), width, height, line, ofs, len)? {
        Some(part) => {
            let n = data.len().min(part.count as usize) as u16;
            Ok(set_part(pixels, part.start, data, 0, n))
        }
        None => Ok(0),
    }
}

// The rows of a rectangle of a picture whose rows begin `stride` apart: one part of `pixels`, with what lies between
// the rows.
#[tactic(auto, unfolding(crate::specs::Pixels::region))]
pub fn region<'a>(
    pixels: &'a [u32],
    stride: usize,
    x: u32,
    y: u32,
    w: u32,
    h: u32,
) -> Result<&'a [u32], Refusal>
    ensures { Hands (region pixels.now stride x y w h) (region_start stride x y) pixels.entry result }
{
    if !small_area(x, y, w, h) {
        return Err(Refusal::TooLarge);
    }
    if !region_fits(pixels.len(), stride, x, y, w, h) {
        return Err(Refusal::OutsidePixels);
    }
    let start = x as usize + y as usize * stride;
    let count = (h as usize - 1) * stride + w as usize;
    Ok(&pixels[start..start + count])
}
