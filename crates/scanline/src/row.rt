// One run of pixels. Along a row columns are counted in 16 bits: none passes 32,767. Document 02, N4.
ghost use Rattle.std.specs.Prelude.{◌≡◌, ◌+◌, ◌≤◌, length, replicate};
ghost use Rattle.std.proofs.lemmas.List.Edits.{sets};
ghost use Rattle.scanline.specs.Pixels.{part};
ghost use Rattle.scanline.specs.inner.Rows.{Counted};

// n pixels of `src` from `from` on go to `at` on.
pub fn copy_part(px: &mut [u32], at: usize, src: &[u32], from: usize, n: u16)
    requires { (at + n ≤ length px.old) × (from + n ≤ length src.now) }
    ensures { px.new ≡ sets px.old at (part from n src.now) }
{
    for i in 0..n {
        px[at + i as usize] = src[from + i as usize];
    }
}

// The same as `copy_part`; returns how many pixels differ afterwards. The pixels that keep their values are counted:
// this takes an instruction less for each four pixels than counting those that differ.
pub fn set_part(px: &mut [u32], at: usize, src: &[u32], from: usize, n: u16) -> usize
    requires { (at + n ≤ length px.old) × (from + n ≤ length src.now) }
    ensures { Counted (sets px.old at (part from n src.now)) px.old px.new result }
{
    let mut kept: u32 = 0;
    for i in 0..n {
        let v = src[from + i as usize];
        kept += u32::from(px[at + i as usize] == v);
        px[at + i as usize] = v;
    }
    n as usize - kept as usize
}

// n pixels from `at` on become `v`; returns how many differ afterwards.
pub fn fill_part(px: &mut [u32], at: usize, n: u16, v: u32) -> usize
    requires { at + n ≤ length px.old }
    ensures { Counted (sets px.old at (replicate n v)) px.old px.new result }
{
    let mut kept: u32 = 0;
    for column in 0..n {
        let i = at + column as usize;
        kept += u32::from(px[i] == v);
        px[i] = v;
    }
    n as usize - kept as usize
}
