// The lines of region sheets.
ghost use Rattle.std.specs.Prelude.{ℕ, ◌≤◌, ◌<◌, ◌≡◌, length, take};
ghost use Rattle.geom.specs.Refusals.{answer_of, value_or, listing_of};
ghost use Rattle.windows.specs.View.{group, Given};
ghost use Rattle.script.specs.Kind as Code;
ghost use Rattle.script.specs.Kind.{code_of};
ghost use Rattle.bare_lines.specs.Numbers.{num, id_of, Sound};
ghost use Rattle.answer_text.specs.Added.{Says};
ghost use Rattle.replay.specs.Told.{sheet_line};
ghost use Rattle.replay.specs.Ready.{Ready};
ghost use Rattle.replay.specs.Played.{Pixels, sheet_len, Writes, PlaysAt};
ghost use Rattle.replay.specs.inner.Sheets.{ReadsPart, PrintsPart};

use crate::lend;
use crate::player::Player;
use answer_text::Output;
use bare_lines::numbers;
use bare_lines::numbers::Numbers;
use geom::refusal::Refusal;
use script::Line;
use windows::Session;

// The numbers of the line as bytes, of which each is one.
fn bytes_of(numbers: &[u32]) -> [u8; 4096]
    requires { (length numbers.now ≤ 4096) × ((i : ℕ) → i < length numbers.now → num numbers.now i ≤ 255) }
    ensures { take (length numbers.now) result ≡ numbers.now }
{
    let mut bytes = [0u8; 4096];
    for i in 0..numbers.len() {
        bytes[i] = numbers[i] as u8;
    }
    bytes
}

// The reader is lent the front of the list.
fn read(bytes: &[u8], list: &mut [u32], len: usize) -> Result<usize, Refusal>
    requires { len ≤ length list.old }
    ensures { ReadsPart bytes.now len list.old (listing_of result) list.new }
{
    sheet::read_sheet(bytes, &mut list[..len])
}

// The bytes of the line are a sheet's.
fn read_numbers(numbers: &[u32], list: &mut [u32], len: usize) -> Result<usize, Refusal>
    requires { (length numbers.now ≤ 4096) × ((i : ℕ) → i < length numbers.now → num numbers.now i ≤ 255) × (len ≤ length list.old) }
    ensures { ReadsPart numbers.now len list.old (listing_of result) list.new }
{
    let bytes = bytes_of(numbers);
    read(&bytes[..numbers.len()], list, len)
}

pub fn read_sheet(p: &mut Player, line: Line, ns: &Numbers, list: &mut [u32; 7812])
    requires { Ready p.old × Sound line ns.now × (code_of line.kind ≡ Code.read_sheet) }
    ensures { (a : Pixels) → Writes line ns.now p.old a p.new a }
{
    let len = lend::list_len(p, 7812);
    let count = read_numbers(&ns[..line.count], list, len);
    p.list = None;
    lend::write_rects(count, list, &mut p.out);
}

// How many bytes the buffer of a sheet has: what was said, or as many as suffice for every window.
fn sheet_len(p: &Player) -> usize
    requires { Ready p.now }
    ensures { (result ≡ sheet_len p.now) × (result ≤ 2048) }
{
    p.sheet.unwrap_or(2048)
}

// The call is lent the front of the buffer.
fn printed(s: &Session, ns: &Numbers, bytes: &mut [u8], len: usize) -> Result<usize, Refusal>
    requires { Given s.now × (len ≤ length bytes.old) }
    ensures { PrintsPart (group s.now) (id_of ns.now) len bytes.old (listing_of result) bytes.new }
{
    s.sheet(numbers::id(ns), &mut bytes[..len])
}

// A buffer before a sheet is printed: made apart, as the other arrays are.
fn buffer() -> [u8; 2048] {
    [0u8; 2048]
}

fn write_sheet(count: Result<usize, Refusal>, bytes: &[u8], out: &mut Output)
    requires { value_or 0 count ≤ length bytes.now }
    ensures { Says (sheet_line (answer_of count) (value_or 0 count) bytes.now) out.old out.new }
{
    match count {
        Ok(count) => {
            out.number(0);
            out.more(count);
            out.all(&bytes[..count]);
            out.end();
        }
        Err(refusal) => out.answer(refusal),
    }
}

pub fn sheet(p: &mut Player, ns: &Numbers)
    requires { Ready p.old }
    ensures { PlaysAt Code.sheet ns.now p.old p.new }
{
    let mut bytes = buffer();
    let len = sheet_len(p);
    let count = printed(&p.session, ns, &mut bytes, len);
    p.sheet = None;
    write_sheet(count, &bytes, &mut p.out);
}
