// The words that a line begins with, and how many numbers it has: CALL-SCRIPT.md's tables.
ghost use Rattle.std.specs.Prelude.{◌≡◌, take};
ghost use Rattle.script.specs.Kind.{code_of};
ghost use Rattle.script.specs.Script.{kind_of, kind_in, counted, counted_by, row_in};
ghost use Rattle.script.specs.inner.Table.{rows_of};

use crate::kind::Kind;

// The most that PIXELS and DATA, points or bytes are together, but for a blit.
const DATA: usize = 4096;

// The most DATA of a blit: the pixels of a whole window of 800 by 480.
const BLIT: usize = 384000;

// The most times.
const TIMES: usize = 4200;

// With each word the kind, how many numbers a line has at least, and how many may follow these.
pub const ROWS: [(&[u8], Kind, usize, usize); 63] = [
    (b"start", Kind::Start, 1, 0),
    (b"create", Kind::Create, 0, 0),
    (b"show", Kind::Show, 1, 0),
    (b"hide", Kind::Hide, 1, 0),
    (b"drop", Kind::Drop, 1, 0),
    (b"mark", Kind::Mark, 1, 0),
    (b"move", Kind::Move, 3, 0),
    (b"resize", Kind::Resize, 3, 0),
    (b"fill", Kind::Fill, 6, 0),
    (b"blit", Kind::Blit, 6, BLIT),
    (b"keydown", Kind::KeyDown, 1, 0),
    (b"keyup", Kind::KeyUp, 1, 0),
    (b"keyfire", Kind::KeyFire, 1, 0),
    (b"text", Kind::Text, 1, 0),
    (b"mousemove", Kind::MouseMove, 2, 0),
    (b"mousedown", Kind::MouseDown, 3, 0),
    (b"mouseup", Kind::MouseUp, 3, 0),
    (b"mouseclick", Kind::MouseClick, 4, 0),
    (b"resized", Kind::Resized, 0, 0),
    (b"pop", Kind::Pop, 1, 0),
    (b"redraw", Kind::Redraw, 3, 0),
    (b"visible", Kind::Visible, 1, 0),
    (b"focus", Kind::Focus, 0, 0),
    (b"lend", Kind::Lend, 1, 0),
    (b"lend-screen", Kind::LendScreen, 1, 0),
    (b"lend-list", Kind::LendList, 1, 0),
    (b"screen", Kind::Screen, 2, 0),
    (b"pixels", Kind::Pixels, 1, 0),
    (b"picture", Kind::Picture, 2, 0),
    (b"intersect", Kind::Intersect, 8, 0),
    (b"pieces", Kind::Pieces, 8, 0),
    (b"union", Kind::Union, 8, 0),
    (b"contains", Kind::Contains, 6, 0),
    (b"contains-rect", Kind::ContainsRect, 8, 0),
    (b"within", Kind::Within, 6, 0),
    (b"scanline", Kind::Scanline, 5, DATA),
    (b"fill-scanline", Kind::FillScanline, 6, DATA),
    (b"set-scanline", Kind::SetScanline, 6, DATA),
    (b"region", Kind::Region, 5, DATA),
    (b"begin", Kind::Begin, 1, 0),
    (b"portion", Kind::Portion, 2, 0),
    (b"busiest", Kind::Busiest, 0, TIMES),
    (b"share", Kind::Share, 1, 0),
    (b"hits", Kind::Hits, 0, DATA),
    (b"dim", Kind::Dim, 1, 0),
    (b"layer", Kind::Layer, 2, 0),
    (b"look", Kind::Look, 9, 0),
    (b"look-fit", Kind::LookFit, 7, 0),
    (b"lend-target", Kind::LendTarget, 1, 0),
    (b"display", Kind::Display, 4, 0),
    (b"display-at", Kind::DisplayAt, 2, 0),
    (b"maximise", Kind::Maximise, 1, 0),
    (b"update-dims", Kind::UpdateDims, 0, 0),
    (b"sheet", Kind::Sheet, 1, 0),
    (b"read-sheet", Kind::ReadSheet, 0, DATA),
    (b"lend-sheet", Kind::LendSheet, 1, 0),
    (b"raise", Kind::Raise, 1, 0),
    (b"drag", Kind::Drag, 3, 0),
    (b"stale", Kind::Stale, 5, 0),
    (b"waiting", Kind::Waiting, 0, 0),
    (b"window", Kind::Window, 1, 0),
    (b"session", Kind::Session, 0, 0),
    (b"who", Kind::Who, 5, 0),
];

fn find(rows: &[(&[u8], Kind, usize, usize)], word: &[u8]) -> Kind
    ensures { code_of result ≡ kind_in word.now (rows_of rows.now) }
{
    match rows.iter().find(|row| word == row.0) {
        Some(row) => row.1,
        None => Kind::Malformed,
    }
}

// The kind of a line that begins with the first letters of a word; malformed where there is no such word.
pub fn kind_of(word: &[u8], letters: usize) -> Kind
    ensures { code_of result ≡ kind_of (take letters word.now) }
{
    find(&ROWS, &word[..letters.min(word.len())])
}

fn fits(rows: &[(&[u8], Kind, usize, usize)], kind: Kind, count: usize) -> bool
    ensures { result ≡ counted_by (row_in (code_of kind) (rows_of rows.now)) count }
{
    match rows.iter().find(|row| kind == row.1) {
        Some(row) => row.2 <= count && count - row.2 <= row.3,
        None => false,
    }
}

// Does a line of this kind have so many numbers?
pub fn is_counted(kind: Kind, count: usize) -> bool
    ensures { result ≡ counted (code_of kind) count }
{
    fits(&ROWS, kind, count)
}
