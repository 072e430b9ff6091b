// The lines of bare pixels. The pixels are numbers of the line.
ghost use Rattle.std.specs.Prelude.{◌≡◌, ◌+◌, ◌≤◌, length};
ghost use Rattle.geom.specs.Refusals.{answer_of, value_or};
ghost use Rattle.answer_text.specs.Text.{answer_by};
ghost use Rattle.answer_text.specs.Added.{Says};
ghost use Rattle.bare_lines.specs.Told.{part_line, part_of, altered_line, scanline_line, fill_line, set_line, region_line, pixel_line};
ghost use Rattle.script.specs.Kind as Code;
ghost use Rattle.script.specs.Kind.{code_of};
ghost use Rattle.bare_lines.specs.Numbers.{num, Sound};

use crate::numbers::Numbers;
use answer_text::{Number, Output};
use geom::refusal::Refusal;
use script::Line;
use script::kind::Kind;

pub fn pixel_line(line: Line, ns: &mut Numbers, out: &mut Output)
    requires { Sound line ns.old × (Code.scanline ≤ code_of line.kind) × (code_of line.kind ≤ Code.region) }
    ensures { Says (pixel_line (code_of line.kind) line.count ns.old) out.old out.new }
{
    let ns = &mut ns[..line.count];
    match line.kind {
        Kind::Scanline => scanline(ns, out),
        Kind::FillScanline => fill_scanline(ns, out),
        Kind::SetScanline => set_scanline(ns, out),
        _ => region(ns, out),
    }
}

// The numbers of a part, or the number that it was refused with.
pub fn write_part<N: Number>(part: Result<&[u32], N>, out: &mut Output)
    ensures { Says (part_line (answer_by N.value part.entry) (part_of part.entry)) out.old out.new }
{
    match part {
        Ok(pixels) => {
            out.number(0);
            out.all(pixels);
            out.end();
        }
        Err(number) => out.answer(number),
    }
}

// How many pixels were altered, and then all of them.
fn write_altered(altered: Result<usize, Refusal>, pixels: &[u32], out: &mut Output)
    ensures { Says (altered_line (answer_of altered) (value_or 0 altered) pixels.now) out.old out.new }
{
    match altered {
        Ok(altered) => {
            out.number(0);
            out.more(altered);
            out.all(pixels);
            out.end();
        }
        Err(refusal) => out.answer(refusal),
    }
}

// The picture and the part of its scanline that a line names.
#[derive(Clone, Copy)]
struct Scan {
    w: u32,
    h: u32,
    line: u32,
    ofs: u32,
    len: u32,
}

fn scan_of(ns: &[u32]) -> Scan
    requires { 5 ≤ length ns.now }
    ensures { result ≡ record { w = num ns.now 0; h = num ns.now 1; line = num ns.now 2; ofs = num ns.now 3; len = num ns.now 4 } }
{
    Scan {
        w: ns[0],
        h: ns[1],
        line: ns[2],
        ofs: ns[3],
        len: ns[4],
    }
}

fn scanline(ns: &[u32], out: &mut Output)
    requires { 5 ≤ length ns.now }
    ensures { Says (scanline_line (length ns.now) ns.now) out.old out.new }
{
    let s = scan_of(ns);
    let part = winbuf::scanline_rgn(&ns[5..], s.w, s.h, s.line, s.ofs, s.len);
    write_part(part, out);
}

fn region(ns: &[u32], out: &mut Output)
    requires { 5 ≤ length ns.now }
    ensures { Says (region_line (length ns.now) ns.now) out.old out.new }
{
    let part = stride::region_of(&ns[5..], ns[4] as usize, ns[0], ns[1], ns[2], ns[3]);
    write_part(part, out);
}

fn fill_scanline(ns: &mut [u32], out: &mut Output)
    requires { 6 ≤ length ns.old }
    ensures { Says (fill_line (length ns.old) ns.old) out.old out.new }
{
    let s = scan_of(ns);
    let value = ns[5];
    let pixels = &mut ns[6..];
    let altered = winbuf::fill_scanline(pixels, s.w, s.h, s.line, s.ofs, s.len, value);
    write_altered(altered, pixels, out);
}

// The data come first, as many as the sixth number says, and then the pixels.
fn set_scanline(ns: &mut [u32], out: &mut Output)
    requires { 6 + num ns.old 5 ≤ length ns.old }
    ensures { Says (set_line (length ns.old) ns.old) out.old out.new }
{
    let s = scan_of(ns);
    let n = ns[5] as usize;
    let (head, pixels) = ns.split_at_mut(6 + n);
    let altered = winbuf::set_scanline(pixels, s.w, s.h, s.line, s.ofs, s.len, &head[6..]);
    write_altered(altered, pixels, out);
}
