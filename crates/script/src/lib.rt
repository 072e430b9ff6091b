// The lines of a call script, read byte by byte: no line is stored, so none is too long. CALL-SCRIPT.md is the law.
#![tactic(auto)]

ghost use Rattle.std.specs.Prelude.{◌≡◌, ℕ, ◌≤◌, List, [], ◌++◌, length};
ghost use Rattle.std.proofs.Math.Seq.{slice};
ghost use Rattle.script.specs.Kind.{code_of};
ghost use Rattle.script.specs.Script.{Shaped, hears, heard_of};
ghost use Rattle.script.specs.Machine.{Reads, ReadTo};

use kind::Kind;
pub use shape::Line;

mod complete;
mod feed;
pub mod kind;
mod name;
mod number;
mod shape;
mod table;
mod word;

const SPACE: u8 = b' ';

// How far a line has been read: the letters of the first word; once that has ended, the kind, how many numbers have ended, and how many bytes
// a picture's name has.
#[derive(Clone, Copy)]
pub enum Reading {
    AtStart,
    // Spaces alone.
    Spaces,
    InWord {
        letters: usize,
    },
    // Between two words, or after the last.
    Between {
        kind: Kind,
        count: usize,
    },
    InNumber {
        kind: Kind,
        count: usize,
    },
    InName {
        kind: Kind,
        count: usize,
        named: usize,
    },
    AfterName {
        kind: Kind,
        count: usize,
        named: usize,
    },
    InComment,
    // The line is malformed, whatever follows.
    Spoiled,
}

// A reading, and the place in a block that it has come to.
#[derive(Clone, Copy)]
pub struct Step {
    pub reading: Reading,
    pub at: usize,
}

impl Reading {
    // At the start of a line.
    pub fn fresh() -> Reading
        ensures { (w ns name : List ℕ) → Reads [] result w ns name }
    {
        Reading::AtStart
    }
}

// Reads the bytes from `from` on, up to the next newline or the block's end; `at` is that place. The word, the numbers and the name lie in arrays of
// the caller, as the library has no heap; a struct of the three would be no plainer, since each step takes the one that it changes.
pub fn read(
    reading: Reading,
    block: &[u8],
    from: usize,
    word: &mut [u8; 16],
    numbers: &mut [u32; 384006],
    name: &mut [u8; 64],
) -> Step
    requires { from ≤ length block.now }
    ensures read_to { ReadTo block.now from result.at }
    ensures by_index { (bs : List ℕ) → Reads bs reading word.old numbers.old name.old
        → Reads (bs ++ slice from result.at block.now) result.reading word.new numbers.new name.new }
{
    feed::feed_all(reading, block, from, word, numbers, name)
}

// The line that has been read, at its newline or at the end of the input.
pub fn line(reading: Reading, word: &[u8; 16], numbers: &[u32; 384006]) -> Line
    ensures shaped { Shaped (code_of result.kind) result.count result.name numbers.now }
    ensures by_index { (bs name : List ℕ) → length name ≡ 64 → Reads bs reading word.now numbers.now name
        → hears bs ≡ heard_of result numbers.now name }
{
    complete::line_of(reading, word, numbers)
}
