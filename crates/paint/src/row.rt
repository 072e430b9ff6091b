// Dimming along a row: pixels read through a table. Document 02, N10.
ghost use Rattle.std.specs.Prelude.{true, ◌≡◌, map, ◌+◌, ◌≤◌, ◌<◌, length, replicate, get_or};
ghost use Rattle.std.proofs.lemmas.List.Edits.{sets};
ghost use Rattle.scanline.specs.Pixels.{part};
ghost use Rattle.paint.specs.Shade as Shade;
ghost use Rattle.paint.specs.inner.Table.{Entries};

use scanline::row::{copy_part, fill_part};

// Entry i is (i * i + 127) / 255. Who lends it builds it anew: so it is lent once for all rows of an area.
pub const TABLE: [u8; 256] = *b"\
    \x00\x00\x00\x00\x00\x00\x00\x00\x00\x00\x00\x00\x01\x01\x01\x01\
    \x01\x01\x01\x01\x02\x02\x02\x02\x02\x02\x03\x03\x03\x03\x04\x04\
    \x04\x04\x05\x05\x05\x05\x06\x06\x06\x07\x07\x07\x08\x08\x08\x09\
    \x09\x09\x0a\x0a\x0b\x0b\x0b\x0c\x0c\x0d\x0d\x0e\x0e\x0f\x0f\x10\
    \x10\x11\x11\x12\x12\x13\x13\x14\x14\x15\x15\x16\x17\x17\x18\x18\
    \x19\x1a\x1a\x1b\x1c\x1c\x1d\x1e\x1e\x1f\x20\x20\x21\x22\x23\x23\
    \x24\x25\x26\x26\x27\x28\x29\x2a\x2a\x2b\x2c\x2d\x2e\x2f\x2f\x30\
    \x31\x32\x33\x34\x35\x36\x37\x38\x38\x39\x3a\x3b\x3c\x3d\x3e\x3f\
    \x40\x41\x42\x43\x44\x45\x46\x47\x49\x4a\x4b\x4c\x4d\x4e\x4f\x50\
    \x51\x52\x54\x55\x56\x57\x58\x59\x5b\x5c\x5d\x5e\x5f\x61\x62\x63\
    \x64\x66\x67\x68\x69\x6b\x6c\x6d\x6f\x70\x71\x73\x74\x75\x77\x78\
    \x79\x7b\x7c\x7e\x7f\x80\x82\x83\x85\x86\x88\x89\x8b\x8c\x8e\x8f\
    \x91\x92\x94\x95\x97\x98\x9a\x9b\x9d\x9e\xa0\xa2\xa3\xa5\xa6\xa8\
    \xaa\xab\xad\xaf\xb0\xb2\xb4\xb5\xb7\xb9\xba\xbc\xbe\xc0\xc1\xc3\
    \xc5\xc7\xc8\xca\xcc\xce\xcf\xd1\xd3\xd5\xd7\xd9\xda\xdc\xde\xe0\
    \xe2\xe4\xe6\xe8\xe9\xeb\xed\xef\xf1\xf3\xf5\xf7\xf9\xfb\xfd\xff\
    ";

fn entry(i: u32, table: &[u8; 256]) -> u32
    requires { Entries table.now × (i < 256) }
    ensures { (result ≡ Shade.entry i) × (result < 256) }
{
    u32::from(table[i as usize])
}

// Red, green and blue go through the table; the top byte stays.
fn shade(v: u32, table: &[u8; 256]) -> u32
    requires { Entries table.now }
    ensures { result ≡ Shade.shade v }
{
    v / 16777216 * 16777216
        + entry(v / 65536 % 256, table) * 65536
        + entry(v / 256 % 256, table) * 256
        + entry(v % 256, table)
}

// n pixels of `src` from `from` on go through the table to `at` on, one by one.
fn shade_each(px: &mut [u32], at: usize, src: &[u32], from: usize, n: u16, table: &[u8; 256])
    requires { (at + n ≤ length px.old) × (from + n ≤ length src.now) × Entries table.now }
    ensures { px.new ≡ sets px.old at (map Shade.shade (part from n src.now)) }
{
    for i in 0..n {
        px[at + i as usize] = shade(src[from + i as usize], table);
    }
}

// Are eight pixels all alike? The last four are compared with the first, and then the three between: in runs of a
// colour these are alike where the last four are, so that the processor foresees the second branch. The answers are
// added up: of seven joined by `&` the compiler makes a branch on the first five pixels, and one on each of the others,
// and of the slice's `all` seven branches.
fn are_alike(src: &[u32], at: usize) -> bool
    requires { at + 8 ≤ length src.now }
    ensures { result ≡ true → part at 8 src.now ≡ replicate 8 (get_or src.now at 0) }
{
    let v = src[at];
    let last = u32::from(src[at + 4] == v)
        + u32::from(src[at + 5] == v)
        + u32::from(src[at + 6] == v)
        + u32::from(src[at + 7] == v);
    if last != 4 {
        return false;
    }
    u32::from(src[at + 1] == v) + u32::from(src[at + 2] == v) + u32::from(src[at + 3] == v) == 3
}

// Eight pixels. Where all are alike, the table is asked for one.
fn shade_eight(px: &mut [u32], at: usize, src: &[u32], from: usize, table: &[u8; 256])
    requires { (at + 8 ≤ length px.old) × (from + 8 ≤ length src.now) × Entries table.now }
    ensures { px.new ≡ sets px.old at (map Shade.shade (part from 8 src.now)) }
{
    if are_alike(src, from) {
        fill_part(px, at, 8, shade(src[from], table));
    } else {
        shade_each(px, at, src, from, 8, table);
    }
}

// n pixels of `src` from `from` on go through the table to `at` on.
pub fn shade_part(px: &mut [u32], at: usize, src: &[u32], from: usize, n: u16, table: &[u8; 256])
    requires { (at + n ≤ length px.old) × (from + n ≤ length src.now) × Entries table.now }
    ensures { px.new ≡ sets px.old at (map Shade.shade (part from n src.now)) }
{
    let eights = n / 8;
    for k in 0..eights {
        shade_eight(px, at + k as usize * 8, src, from + k as usize * 8, table);
    }
    let done = eights as usize * 8;
    shade_each(px, at + done, src, from + done, n % 8, table);
}

// n pixels of `src` from `from` on go to `at` on, while dimming is on (`DIM`) through the table.
pub(crate) fn draw_part<const DIM: bool>(
    px: &mut [u32],
    at: usize,
    src: &[u32],
    from: usize,
    n: u16,
    table: &[u8; 256],
)
    requires { (at + n ≤ length px.old) × (from + n ≤ length src.now) × Entries table.now }
    ensures { px.new ≡ sets px.old at (map (Shade.tone DIM) (part from n src.now)) }
{
    if DIM {
        shade_part(px, at, src, from, n, table)
    } else {
        copy_part(px, at, src, from, n)
    }
}
