// A picture of the screen in a file: a binary PPM, written in blocks.
ghost use Rattle.std.specs.Prelude.{◌≡◌, [], ◌*◌, ◌≤◌, length, take, OnOk};
ghost use Rattle.std.specs.Io.KnownBytes.{Appends};
ghost use Rattle.answer_text.specs.Picture as Picture;

use arrayvec::ArrayVec;
use std::io::Write;
use std::rt::Files;
use std::{fs, io};

// Whether all of it is written. A file's name is text here, which every name of a script is. It stands apart when it is
// compiled too: other lines need no stack for a block.
#[inline(never)]
pub fn write<R: Files>(files: &R, name: &[u8], w: u32, h: u32, pixels: &[u32]) -> bool {
    let Ok(path) = str::from_utf8(name) else {
        return false;
    };
    let Ok(mut file) = fs::create(files, path) else {
        return false;
    };
    whole(&mut file, w, h, pixels).is_ok()
}

// The header, and then the pixels, block by block.
fn whole<W: Write>(file: &mut W, w: u32, h: u32, pixels: &[u32]) -> io::Result<()>
    ensures { OnOk result (Appends (W.contents file.old) (W.contents file.new) (Picture.picture w h pixels.now)) }
{
    let mut head = ArrayVec::new();
    header(w, h, &mut head);
    file.write_all(head.as_slice())?;
    let mut block = [0u8; 65536];
    for next in pixels.chunks(21845) {
        part(file, next, &mut block)?;
    }
    Ok(())
}

// Writes the next pixels, at most 21,845. The bytes that were written stand at the front of the block.
fn part<W: Write>(file: &mut W, pixels: &[u32], block: &mut [u8; 65536]) -> io::Result<()>
    requires { 3 * length pixels.now ≤ 65536 }
    ensures block { take (3 * length pixels.now) block.new ≡ Picture.colours pixels.now }
    ensures file { OnOk result (Appends (W.contents file.old) (W.contents file.new) (Picture.colours pixels.now)) }
{
    colours(pixels, block);
    file.write_all(&block[..3 * pixels.len()])
}

// The block has room for six bytes and three numbers of twenty digits.
fn header(w: u32, h: u32, block: &mut ArrayVec<u8, 66>)
    requires { block.old.items ≡ [] }
    ensures { block.new.items ≡ Picture.header w h }
{
    block.push(b'P');
    block.push(b'6');
    block.push(b'\n');
    crate::put_number(block, u64::from(w));
    block.push(b' ');
    crate::put_number(block, u64::from(h));
    block.push(b'\n');
    crate::put_number(block, 255);
    block.push(b'\n');
}

// Red, green and blue of each pixel. They are put at their places: to push them would count each byte in memory.
fn colours(pixels: &[u32], block: &mut [u8])
    requires { 3 * length pixels.now ≤ length block.old }
    ensures { take (3 * length pixels.now) block.new ≡ Picture.colours pixels.now }
{
    for i in 0..pixels.len() {
        let v = pixels[i];
        block[3 * i] = (v / 65536 % 256) as u8;
        block[3 * i + 1] = (v / 256 % 256) as u8;
        block[3 * i + 2] = (v % 256) as u8;
    }
}
