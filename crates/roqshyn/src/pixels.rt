// The bare calls on pixels. A part is handed back as where it begins in the lent pixels and how long it is, never as a
// copy: an exported function cannot return a reference.
ghost use Rattle.winbuf.specs.Pixels.{line_start, scanline, fill_scanline, set_scanline, region};
ghost use Rattle.winbuf.specs.Bare.{Gives, range_of, region_start};
ghost use Rattle.roqshyn.specs.Answers.{as_altered};
ghost use Rattle.roqshyn.specs.Parts.{Lies};
ghost use Rattle.roqshyn.specs.inner.Parts.{named};

use crate::answers::RoqAltered;
use geom::refusal::Refusal;
use std::ops::Range;

// A part of lent pixels: `count` of them from `start` on. A part of none begins at 0.
#[repr(C)]
#[derive(Clone, Copy)]
pub struct RoqPart {
    pub answer: u32,
    pub start: usize,
    pub count: usize,
}

impl From<Result<Range<usize>, Refusal>> for RoqPart {
    ghost use Rattle.std.specs.Prelude.{◌≡◌};
    ghost use Rattle.winbuf.specs.Bare.{range_of};
    ghost use Rattle.roqshyn.specs.inner.Parts.{named};

    ghost from_gives = { λ found r. r ≡ named (range_of found) };

    fn from(found: Result<Range<usize>, Refusal>) -> RoqPart {
        match found {
            Ok(range) => {
                let count = range.len();
                RoqPart {
                    answer: 0,
                    start: if count == 0 { 0 } else { range.start },
                    count,
                }
            }
            Err(refusal) => RoqPart {
                answer: refusal.number(),
                start: 0,
                count: 0,
            },
        }
    }
}

// Where the rows of a rectangle lie.
fn region_range(
    pixels: &[u32],
    stride: usize,
    x: u32,
    y: u32,
    w: u32,
    h: u32,
) -> Result<Range<usize>, Refusal>
    ensures { Lies (region pixels.now stride x y w h) (region_start stride x y) pixels.now (named (range_of result)) }
{
    let count = winbuf::region(pixels, stride, x, y, w, h)?.len();
    if count == 0 {
        return Ok(0..0);
    }
    let start = x as usize + y as usize * stride;
    Ok(start..start + count)
}

#[unsafe(no_mangle)]
pub extern "C" fn roq_fill_scanline(
    pixels: &mut [u32],
    width: u32,
    height: u32,
    line: u32,
    ofs: u32,
    len: u32,
    value: u32,
) -> RoqAltered
    ensures { Gives (fill_scanline pixels.old width height line ofs len value) (as_altered result) pixels.new }
{
    winbuf::fill_scanline(pixels, width, height, line, ofs, len, value).into()
}

#[unsafe(no_mangle)]
pub extern "C" fn roq_set_scanline(
    pixels: &mut [u32],
    width: u32,
    height: u32,
    line: u32,
    ofs: u32,
    len: u32,
    data: &[u32],
) -> RoqAltered
    ensures { Gives (set_scanline pixels.old width height line ofs len «data».now) (as_altered result) pixels.new }
{
    winbuf::set_scanline(pixels, width, height, line, ofs, len, data).into()
}

// A scanline, cut to the width.
#[unsafe(no_mangle)]
pub extern "C" fn roq_scanline(
    pixels: &[u32],
    width: u32,
    height: u32,
    line: u32,
    ofs: u32,
    len: u32,
) -> RoqPart
    ensures { Lies (scanline pixels.now width height line ofs len) (line_start width line ofs) pixels.now result }
{
    winbuf::scanline_range(pixels.len(), width, height, line, ofs, len).into()
}

// The rows of a rectangle of a picture whose rows begin `stride` apart, with what lies between the rows.
#[unsafe(no_mangle)]
pub extern "C" fn roq_region(
    pixels: &[u32],
    stride: usize,
    x: u32,
    y: u32,
    w: u32,
    h: u32,
) -> RoqPart
    ensures { Lies (region pixels.now stride x y w h) (region_start stride x y) pixels.now result }
{
    region_range(pixels, stride, x, y, w, h).into()
}
