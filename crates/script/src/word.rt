// The first word of a line.
ghost use Rattle.std.specs.Prelude.{◌≡◌, List, ℕ, length, take};
ghost use Rattle.script.specs.Script.{kind_of};
ghost use Rattle.script.specs.Machine.{state_of, at_start, spaces, in_word, opened, letter, step};

use crate::kind::Kind;
use crate::{Reading, SPACE, table};

// The most letters of a word.
const LETTERS: usize = 16;

// The first word ends: its kind is known, and no number is read.
fn ends(word: &[u8], letters: usize) -> Reading
    ensures { (w ns name : List ℕ) → state_of result w ns name ≡ opened (kind_of (take letters word.now)) }
{
    let kind = table::kind_of(word, letters);
    if kind == Kind::Malformed {
        return Reading::Spoiled;
    }
    Reading::Between { kind, count: 0 }
}

// A letter of the first word, of which there are `at` already.
fn letter(at: usize, b: u8, word: &mut [u8]) -> Reading
    requires { length word.old ≡ 16 }
    ensures { (ns name : List ℕ) → state_of result word.new ns name ≡ letter (in_word (take at word.old)) b }
{
    if at >= LETTERS {
        return Reading::Spoiled;
    }
    word[at] = b;
    Reading::InWord { letters: at + 1 }
}

// A byte after a letter.
pub fn next(letters: usize, b: u8, word: &mut [u8]) -> Reading
    requires { length word.old ≡ 16 }
    ensures { (ns name : List ℕ) → state_of result word.new ns name
        ≡ step (in_word (take letters word.old)) b }
{
    if b == SPACE {
        return ends(word, letters);
    }
    letter(letters, b, word)
}

// A byte after spaces alone.
pub fn first(b: u8, word: &mut [u8]) -> Reading
    requires { length word.old ≡ 16 }
    ensures { (ns name : List ℕ) → state_of result word.new ns name ≡ step spaces b }
{
    if b == SPACE {
        return Reading::Spaces;
    }
    letter(0, b, word)
}

// The first byte of a line.
pub fn at_start(b: u8, word: &mut [u8]) -> Reading
    requires { length word.old ≡ 16 }
    ensures { (ns name : List ℕ) → state_of result word.new ns name ≡ step at_start b }
{
    if b == b'#' {
        return Reading::InComment;
    }
    first(b, word)
}
