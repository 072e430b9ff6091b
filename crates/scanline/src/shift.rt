// Pixels moved inside one slice: the result is that of a copy taken first, also where source and target overlap. The
// slice's own `copy_within` was tried: a window of 799 by 480 made a column wider took 1,362,315 instructions in place
// of 620,864, and ten times as long. So eight pixels are moved at a time, as long as there are eight, and then one:
// loops that step by a stride.
ghost use Rattle.std.specs.Prelude.{◌≡◌, ◌+◌, ◌≤◌, length};
ghost use Rattle.std.proofs.lemmas.List.Edits.{sets};
ghost use Rattle.scanline.specs.Pixels.{part};

use crate::row::copy_part;

// Eight pixels, by way of a copy: source and target may overlap in any way.
pub fn move_eight(px: &mut [u32], dst: usize, src: usize)
    requires { (dst + 8 ≤ length px.old) × (src + 8 ≤ length px.old) }
    ensures { px.new ≡ sets px.old dst (part src 8 px.old) }
{
    let mut kept: [u32; 8] = [0; 8];
    copy_part(&mut kept, 0, px, src, 8);
    copy_part(px, dst, &kept, 0, 8)
}

// n pixels from `src` on go to `dst` on, where `dst` is not after `src`.
pub fn move_down(px: &mut [u32], dst: usize, src: usize, n: u16)
    requires { (dst ≤ src) × (src + n ≤ length px.old) }
    ensures { px.new ≡ sets px.old dst (part src n px.old) }
{
    let mut i: u16 = 0;
    while i < n {
        if n - i >= 8 {
            move_eight(px, dst + i as usize, src + i as usize);
            i += 8;
        } else {
            px[dst + i as usize] = px[src + i as usize];
            i += 1;
        }
    }
}

// The same where `dst` is not before `src`.
pub fn move_up(px: &mut [u32], dst: usize, src: usize, n: u16)
    requires { (src ≤ dst) × (dst + n ≤ length px.old) }
    ensures { px.new ≡ sets px.old dst (part src n px.old) }
{
    let mut i = n;
    while i > 0 {
        if i >= 8 {
            i -= 8;
            move_eight(px, dst + i as usize, src + i as usize);
        } else {
            i -= 1;
            px[dst + i as usize] = px[src + i as usize];
        }
    }
}
