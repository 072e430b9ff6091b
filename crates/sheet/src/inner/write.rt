// A sheet's bytes, from its numbers.
ghost use Rattle.std.specs.Prelude.{[], ◌∷◌, ◌≡◌, ◌+◌, ◌-◌, ◌*◌, ◌^◌, ◌/◌, ◌%◌, ◌≤◌, ◌<◌, length};
ghost use Rattle.geom.specs.Refusals.{listing_of};
ghost use Rattle.sheet.specs.Bytes.{bits_of, span_bits, band_bits, bits};
ghost use Rattle.sheet.specs.inner.Numbers.{spans_in, count_in, band_in, bands_in, end_in};
ghost use Rattle.sheet.specs.inner.Writer.{Put, Writes};

use crate::inner::bits::low;
use geom::refusal::Refusal;

// Three bytes as one number: the first r bits of a byte, the last n bits of v, and zeros.
fn front(byte: usize, r: usize, n: usize, v: usize) -> usize
    requires { (byte ≤ 255) × (r ≤ 7) × (n ≤ 15) }
    ensures { (result ≡ (byte / 2 ^ (8 - r) * 2 ^ n + v % 2 ^ n) * 2 ^ (24 - r - n)) × (result < 2 ^ 24) }
{
    let begun = byte >> (8 - r);
    ((begun << n) + low(v, n)) << (24 - r - n)
}

// Writes the last n bits of v from the k-th bit on, all before it being written. Each byte that they touch is stored once, behind the
// bits that it has already, and the last one ends in zeros.
fn write_bits(out: &mut [u8], k: usize, n: usize, v: u32)
    requires { (k + n ≤ 8 * length out.old) × (k ≤ 100000) × (0 < n) × (n ≤ 15) }
    ensures { Put k (bits_of n v) out.old out.new }
{
    let i = k / 8;
    let r = k % 8;
    let three = front(out[i] as usize, r, n, v as usize);
    out[i] = (three >> 16) as u8;
    if r + n <= 8 {
        return;
    }
    out[i + 1] = ((three >> 8) % 256) as u8;
    if r + n <= 16 {
        return;
    }
    out[i + 2] = (three % 256) as u8;
}

// Writes the bits of the n intervals whose numbers stand at place e.
fn write_spans(out: &mut [u8], k: usize, nums: &[u32], e: usize, n: usize)
    requires { (k + 30 * n ≤ 8 * length out.old) × (k + 30 * n ≤ 100000) × (e + 2 * n ≤ length nums.now) }
    ensures { Put k (span_bits (spans_in nums.now e n)) out.old out.new }
{
    for i in 0..n {
        write_bits(out, k + 30 * i, 15, nums[e + 2 * i]);
        write_bits(out, k + 30 * i + 15, 15, nums[e + 2 * i + 1]);
    }
}

// Writes the bits of the band whose numbers stand at place e.
fn write_band(out: &mut [u8], k: usize, nums: &[u32], e: usize)
    requires { (k + 35 + 30 * count_in nums.now e ≤ 8 * length out.old) × (k + 35 + 30 * count_in nums.now e ≤ 100000) × (e + 3 + 2 * count_in nums.now e ≤ length nums.now) }
    ensures { Put k (band_bits (band_in nums.now e ∷ [])) out.old out.new }
{
    write_bits(out, k, 15, nums[e]);
    write_bits(out, k + 15, 15, nums[e + 1]);
    write_bits(out, k + 30, 5, nums[e + 2]);
    write_spans(out, k + 35, nums, e + 3, nums[e + 2] as usize);
}

// Writes the bytes of the sheet of n bands whose numbers are given.
fn write_sheet(out: &mut [u8], nums: &[u32], n: usize)
    requires n_bound { (n ≤ 63) × (end_in nums.now 0 n ≤ length nums.now) }
    requires n_len_bound { (length (bits (bands_in nums.now 0 n)) ≤ 8 * length out.old) × (length (bits (bands_in nums.now 0 n)) ≤ 100000) }
    ensures { Put 0 (bits (bands_in nums.now 0 n)) out.old out.new }
{
    write_bits(out, 0, 6, n as u32);
    let mut k: usize = 6;
    let mut e: usize = 0;
    for _i in 0..n {
        let m = nums[e + 2] as usize;
        write_band(out, k, nums, e);
        k = k + 35 + 30 * m;
        e = e + 3 + 2 * m;
    }
}

// Document 02, N6: writes the sheet of n bands whose numbers are given. "19 when the writer's buffer is shorter than the
// sheet": nothing is written before that is answered.
pub fn write(nums: &[u32], n: usize, out: &mut [u8]) -> Result<usize, Refusal>
    requires { (n ≤ 63) × (length nums.now ≡ end_in nums.now 0 n) × (length nums.now ≤ 5000) }
    ensures { Writes (bands_in nums.now 0 n) out.old (listing_of result) out.new }
{
    let size = (13 + 15 * nums.len() - 10 * n) / 8;
    if out.len() < size {
        return Err(Refusal::SheetLength);
    }
    write_sheet(out, nums, n);
    Ok(size)
}
