// A sheet's rectangles, written to a list.
ghost use Rattle.std.specs.Prelude.{◌≡◌, ◌+◌, ◌-◌, ◌*◌, ◌≤◌, length};
ghost use Rattle.std.proofs.lemmas.List.Edits.{sets};
ghost use Rattle.geom.specs.Lists.{numbers};
ghost use Rattle.geom.specs.Geom.{rect};
ghost use Rattle.sheet.specs.Sheet.{band_rects, rects};
ghost use Rattle.sheet.specs.inner.Cursor.{bit_at, spans_at, sheet_at};

use crate::inner::bits::read;
use geom::Rect;
use geom::inner::numbers::write_rect;

// The rectangle of an interval of a band.
fn rect_of(left: usize, right: usize, top: usize, bottom: usize) -> Rect
    requires { (left ≤ 32767) × (right ≤ 32767) × (top ≤ 32767) × (bottom ≤ 32767) }
    ensures { result ≡ rect left top (right - left) (bottom - top) }
{
    let w = right.saturating_sub(left);
    let h = bottom.saturating_sub(top);
    Rect::new(left as u32, top as u32, w as u32, h as u32)
}

// Writes a rectangle for each of the n intervals at a place, from the given place of the list on. A place of the list holds four
// numbers.
fn write_band(
    bytes: &[u8],
    at: usize,
    n: usize,
    top: usize,
    bottom: usize,
    list: &mut [u32],
    place: usize,
)
    requires at_bound { (at ≤ 70000) × (n ≤ 31) × (top ≤ 32767) × (bottom ≤ 32767) }
    requires n_in_bounds { 4 * (place + n) ≤ length list.old }
    ensures { list.new ≡ sets list.old (4 * place) (numbers (band_rects top bottom (spans_at (bit_at bytes.now) at n))) }
{
    for i in 0..n {
        let left = read(bytes, at + 30 * i, 15);
        let right = read(bytes, at + 30 * i + 15, 15);
        let r = rect_of(left, right, top, bottom);
        write_rect(list, place + i, r);
    }
}

// Writes the rectangles of the sheet that the bytes are.
pub fn write_rects(bytes: &[u8], list: &mut [u32])
    requires { 4 * length (rects (sheet_at (bit_at bytes.now))) ≤ length list.old }
    ensures { list.new ≡ sets list.old 0 (numbers (rects (sheet_at (bit_at bytes.now)))) }
{
    let n = read(bytes, 0, 6);
    let mut at: usize = 6;
    let mut place: usize = 0;
    for _i in 0..n {
        let top = read(bytes, at, 15);
        let bottom = read(bytes, at + 15, 15);
        let k = read(bytes, at + 30, 5);
        write_band(bytes, at + 35, k, top, bottom, list, place);
        place += k;
        at = at + 35 + 30 * k;
    }
}
