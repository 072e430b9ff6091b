// Pixels with the stride of their rows: `StrideBuf` of video/mod.rs, with its names. The work is done over a slice and
// a number, here by `rows` and in `winbuf` by `region`; the methods take the struct apart, and nothing else.
#![tactic(auto)]

ghost use Rattle.std.specs.Prelude.{◌≡◌, length};
ghost use Rattle.winbuf.specs.Pixels.{region};
ghost use Rattle.winbuf.specs.Bare.{Hands, region_start};
ghost use Rattle.stride.specs.Stride.{row_count, HandsRegion};

use geom::refusal::Refusal;

// The pixels are its maker's.
#[derive(Clone, Copy)]
pub struct StrideBuf<'a> {
    pixels: &'a [u32],
    stride: usize,
}

// How many rows begin in so many pixels. No sum is made that could pass 64 bits.
fn rows(total: usize, stride: usize) -> usize
    ensures { result ≡ row_count total stride }
{
    if stride == 0 {
        return 0;
    }
    total.div_ceil(stride)
}

impl<'a> StrideBuf<'a> {
    pub fn new(pixels: &'a [u32], stride: usize) -> StrideBuf<'a>
        ensures { (result.pixels ≡ pixels.entry) × (result.stride ≡ stride) }
    {
        StrideBuf { pixels, stride }
    }

    pub fn stride(self) -> usize
        ensures { result ≡ self.entry.stride }
    {
        self.stride
    }

    // Its rows, a shorter last one too.
    pub fn count(self) -> usize
        ensures { result ≡ row_count (length self.entry.pixels.now) self.entry.stride }
    {
        rows(self.pixels.len(), self.stride)
    }

    // The Rust's `offset` and then `clip`, with questions 5 and 13 in the place of its assertions.
    pub fn region(self, x: u32, y: u32, w: u32, h: u32) -> Result<&'a [u32], Refusal>
        ensures { HandsRegion self.entry x y w h result }
    {
        winbuf::region(self.pixels, self.stride, x, y, w, h)
    }
}

// The same for a caller that has a slice and a number.
pub fn region_of<'a>(
    pixels: &'a [u32],
    stride: usize,
    x: u32,
    y: u32,
    w: u32,
    h: u32,
) -> Result<&'a [u32], Refusal>
    ensures { Hands (region pixels.now stride x y w h) (region_start stride x y) pixels.entry result }
{
    StrideBuf::new(pixels, stride).region(x, y, w, h)
}
