// Whether bytes are a valid sheet: the rules of document 02, N6, in the order of the bits.
ghost use Rattle.std.specs.Prelude.{◌≡◌, ◌+◌, ◌*◌, ◌≤◌};
ghost use Rattle.sheet.specs.Sheet.{Apart, Follows, Proper};
ghost use Rattle.sheet.specs.inner.Cursor.{bit_at, spans_at, band_at};
ghost use Rattle.sheet.specs.inner.Checks.{Decides, before, Checked};

use crate::inner::bits::read;

// "Intervals are not empty, go rightward and never touch": do the n at a place? The next may begin at column `from`.
fn spans_apart(bytes: &[u8], at: usize, n: usize) -> bool
    requires { (at ≤ 70000) × (n ≤ 31) }
    ensures { Decides result (Apart 0 (spans_at (bit_at bytes.now) at n)) }
{
    let mut from: usize = 0;
    for i in 0..n {
        let left = read(bytes, at + 30 * i, 15);
        let right = read(bytes, at + 30 * i + 15, 15);
        if left < from || right <= left {
            return false;
        }
        from = right + 1;
    }
    true
}

// Are the n intervals at two places the same?
fn spans_same(bytes: &[u8], p: usize, q: usize, n: usize) -> bool
    requires { (p ≤ 70000) × (q ≤ 70000) × (n ≤ 31) }
    ensures { Decides result (spans_at (bit_at bytes.now) p n ≡ spans_at (bit_at bytes.now) q n) }
{
    for i in 0..n {
        if read(bytes, p + 30 * i, 15) != read(bytes, q + 30 * i, 15) {
            return false;
        }
        if read(bytes, p + 30 * i + 15, 15) != read(bytes, q + 30 * i + 15, 15) {
            return false;
        }
    }
    true
}

// "Each band's top is less than its bottom and not less than the bottom of the band before; it has at least one interval, and touching
// bands differ in their intervals": does the band at a place, behind one that ends at row `end` and whose m intervals stand at p?
fn band_keeps(bytes: &[u8], at: usize, end: usize, p: usize, m: usize) -> bool
    requires { (at ≤ 69000) × (p ≤ 70000) × (m ≤ 31) }
    ensures { Decides result (Follows (before (bit_at bytes.now) end p m) (band_at (bit_at bytes.now) at) × Proper (band_at (bit_at bytes.now) at)) }
{
    let top = read(bytes, at, 15);
    let bottom = read(bytes, at + 15, 15);
    let n = read(bytes, at + 30, 5);
    if top < end || bottom <= top || n == 0 {
        return false;
    }
    if !spans_apart(bytes, at + 35, n) {
        return false;
    }
    if top == end && n == m {
        return !spans_same(bytes, p, at + 35, n);
    }
    true
}

// How many intervals has the valid sheet that the bytes are, if they are one? "Zero bits fill the last byte, and no byte follows."
pub fn check(bytes: &[u8]) -> Option<usize>
    ensures { Checked bytes.now result }
{
    let n = read(bytes, 0, 6);
    let mut at: usize = 6;
    let mut end: usize = 0;
    let mut p: usize = 0;
    let mut m: usize = 0;
    let mut count: usize = 0;
    for _i in 0..n {
        if !band_keeps(bytes, at, end, p, m) {
            return None;
        }
        end = read(bytes, at + 15, 15);
        m = read(bytes, at + 30, 5);
        p = at + 35;
        at = p + 30 * m;
        count += m;
    }
    let size = (at + 7) / 8;
    if bytes.len() == size && read(bytes, at, 8 * size - at) == 0 {
        return Some(count);
    }
    None
}
