// Where a scanline lies in lent pixels, or what keeps it from lying there.
ghost use Rattle.std.specs.Prelude.{◌≡◌};
ghost use Rattle.winbuf.specs.Pixels.{small_line, on_line};
ghost use Rattle.winbuf.specs.inner.Places.{line_place};

use geom::inner::small::MOST;
use geom::refusal::Refusal;

// `count` pixels of a row, from `start` on.
#[derive(Clone, Copy)]
pub struct Part {
    pub start: usize,
    pub count: u16,
}

fn small_line(width: u32, height: u32, line: u32, ofs: u32, len: u32) -> bool
    ensures { result ≡ small_line width height line ofs len }
{
    width <= MOST && height <= MOST && line <= MOST && ofs <= MOST && len <= MOST
}

fn on_line(width: u32, height: u32, line: u32, ofs: u32) -> bool
    ensures { result ≡ on_line width height line ofs }
{
    line < height && ofs < width
}

// A scanline, cut to the width, of pixels of which there are `total`; none where the line or the offset lies beside the
// picture.
pub fn line_place(
    total: usize,
    width: u32,
    height: u32,
    line: u32,
    ofs: u32,
    len: u32,
) -> Result<Option<Part>, Refusal>
    ensures { result ≡ line_place total width height line ofs len }
{
    if !small_line(width, height, line, ofs, len) {
        return Err(Refusal::TooLarge);
    }
    if !on_line(width, height, line, ofs) {
        return Ok(None);
    }
    let start = line as usize * width as usize + ofs as usize;
    let count = len.min(width - ofs) as u16;
    if total < start + count as usize {
        return Err(Refusal::OutsidePixels);
    }
    Ok(Some(Part { start, count }))
}
