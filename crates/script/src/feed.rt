// One byte of a line.
ghost use Rattle.std.specs.Prelude.{◌≡◌, ◌&&◌, eqb, ℕ, List, ◌≤◌, length, take};
ghost use mathlib.Core.List.{foldl};
ghost use Rattle.std.proofs.Math.Seq.{slice};
ghost use Rattle.script.specs.Kind as Code;
ghost use Rattle.script.specs.Kind.{code_of};
ghost use Rattle.script.specs.Machine.{ReadTo, state_of, between, after_name, step};

use crate::kind::Kind;
use crate::{Reading, SPACE, Step, name, number, word};

// The word after `picture W H` is a name, and any other a number.
fn name_next(kind: Kind, count: usize) -> bool
    ensures { result ≡ eqb (code_of kind) Code.picture && eqb count 2 }
{
    kind == Kind::Picture && count == 2
}

// A byte between two words.
fn between_words(kind: Kind, count: usize, b: u8, numbers: &mut [u32], name: &mut [u8]) -> Reading
    requires { (length numbers.old ≡ 384006) × (length name.old ≡ 64) }
    ensures { (w : List ℕ) → state_of result w numbers.new name.new
        ≡ step (between (code_of kind) (take count numbers.old)) b }
{
    if b == SPACE {
        return Reading::Between { kind, count };
    }
    if name_next(kind, count) {
        return name::more(kind, count, 0, b, name);
    }
    number::first(kind, count, b, numbers)
}

fn after_name(kind: Kind, count: usize, named: usize, b: u8) -> Reading
    ensures { (w ns name : List ℕ) → state_of result w ns name
        ≡ step (after_name (code_of kind) (take count ns) (take named name)) b }
{
    if b == SPACE {
        return Reading::AfterName { kind, count, named };
    }
    Reading::Spoiled
}

// A comment and a malformed line stay what they are.
pub fn feed(
    reading: Reading,
    b: u8,
    word: &mut [u8],
    numbers: &mut [u32],
    name: &mut [u8],
) -> Reading
    requires { (length word.old ≡ 16) × (length numbers.old ≡ 384006) × (length name.old ≡ 64) }
    ensures { state_of result word.new numbers.new name.new
        ≡ step (state_of reading word.old numbers.old name.old) b }
{
    match reading {
        Reading::AtStart => word::at_start(b, word),
        Reading::Spaces => word::first(b, word),
        Reading::InWord { letters } => word::next(letters, b, word),
        Reading::Between { kind, count } => between_words(kind, count, b, numbers, name),
        Reading::InNumber { kind, count } => number::next(kind, count, b, numbers),
        Reading::InName { kind, count, named } => name::next(kind, count, named, b, name),
        Reading::AfterName { kind, count, named } => after_name(kind, count, named, b),
        Reading::InComment | Reading::Spoiled => reading,
    }
}

// The bytes of a block up to the next newline.
pub fn feed_all(
    reading: Reading,
    block: &[u8],
    from: usize,
    word: &mut [u8],
    numbers: &mut [u32],
    name: &mut [u8],
) -> Step
    requires { (from ≤ length block.now) × (length word.old ≡ 16) × (length numbers.old ≡ 384006) × (length name.old ≡ 64) }
    ensures read_to { ReadTo block.now from result.at }
    ensures name_after { state_of result.reading word.new numbers.new name.new
        ≡ foldl step (state_of reading word.old numbers.old name.old)
        (slice from result.at block.now) }
{
    let mut r = reading;
    for at in from..block.len() {
        if block[at] == b'\n' {
            return Step { reading: r, at };
        }
        r = feed(r, block[at], word, numbers, name);
    }
    Step {
        reading: r,
        at: block.len(),
    }
}
