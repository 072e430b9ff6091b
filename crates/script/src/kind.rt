// What a line is: a kind for each word that a line begins with, in the order of CALL-SCRIPT.md's tables; a word that came later is last.
ghost use Rattle.std.specs.Prelude.{◌≡◌, ℕ, eqb};
ghost use Rattle.script.specs.Kind.{code_of};

#[derive(Clone, Copy, Debug, PartialEq, Eq)]
pub enum Kind {
    // Empty, or begins with `#`: nothing is written.
    Passed,
    Malformed,
    Start,
    Create,
    Show,
    Hide,
    Drop,
    Mark,
    Move,
    Resize,
    Fill,
    Blit,
    KeyDown,
    KeyUp,
    KeyFire,
    Text,
    MouseMove,
    MouseDown,
    MouseUp,
    MouseClick,
    Resized,
    Pop,
    Redraw,
    Visible,
    Focus,
    Lend,
    LendScreen,
    LendList,
    Screen,
    Pixels,
    Picture,
    Intersect,
    Pieces,
    Union,
    Contains,
    ContainsRect,
    Within,
    Scanline,
    FillScanline,
    SetScanline,
    Region,
    Begin,
    Portion,
    Busiest,
    Share,
    Hits,
    Dim,
    Layer,
    Look,
    LookFit,
    LendTarget,
    Display,
    DisplayAt,
    Maximise,
    UpdateDims,
    Sheet,
    ReadSheet,
    LendSheet,
    Raise,
    Drag,
    Stale,
    Waiting,
    Window,
    Session,
    Who,
}

// The last of them.
pub const LAST: Kind = Kind::Who;

// The words in the order of their kinds, with what a line of each has.
pub use crate::table::ROWS;

// What says which kind a line is: the kind, or its number, which may be that of none.
pub trait Numbered: Copy {
    ghost code: { Self → ℕ };

    fn code(self) -> u8
        ensures { result ≡ code self };
}

// Is it this kind?
pub fn is<K: Numbered>(k: K, kind: Kind) -> bool
    ensures { result ≡ eqb (K.code k) (code_of kind) }
{
    k.code() == kind as u8
}

impl Numbered for Kind {
    ghost code = { λ kind. code_of kind };

    fn code(self) -> u8 {
        self as u8
    }
}

impl Numbered for u8 {
    ghost code = { λ n. n };

    fn code(self) -> u8 {
        self
    }
}
