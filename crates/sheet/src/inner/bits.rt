// Numbers read at a bit cursor.
ghost use Rattle.std.specs.Prelude.{◌≡◌, ◌*◌, ◌^◌, ◌%◌, ◌≤◌};
ghost use Rattle.sheet.specs.inner.Cursor.{Field};

// The last n bits of v.
pub fn low(v: usize, n: usize) -> usize
    requires { n ≤ 15 }
    ensures { result ≡ v % 2 ^ n }
{
    v & ((1usize << n) - 1)
}

// The i-th byte; 0 past the last.
fn byte(bytes: &[u8], i: usize) -> usize
    ensures { Field bytes.now (8 * i) 8 result }
{
    if i < bytes.len() {
        return bytes[i] as usize;
    }
    0
}

// The number of n bits at a place. Three bytes as one number have it behind their first at % 8 bits.
pub fn read(bytes: &[u8], at: usize, n: usize) -> usize
    requires { (at ≤ 100000) × (n ≤ 15) }
    ensures { Field bytes.now at n result }
{
    let i = at / 8;
    let three = 65536 * byte(bytes, i) + 256 * byte(bytes, i + 1) + byte(bytes, i + 2);
    low(three >> (24 - at % 8 - n), n)
}
