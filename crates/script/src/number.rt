// The numbers of a line.
ghost use Rattle.std.specs.Prelude.{◌≡◌, List, ℕ, length, take, get_or};
ghost use Rattle.std.proofs.Math.Option.{some};
ghost use Rattle.geom.specs.Refusals.{option_of};
ghost use Rattle.script.specs.Kind.{code_of};
ghost use Rattle.script.specs.Machine.{state_of, in_number, step, digit, longer};

use crate::kind::Kind;
use crate::{Reading, SPACE};

// The most numbers of a line: those of a blit, six and its DATA.
pub const MOST: usize = 384006;

// The number n with the digit b behind it, if b is a digit and the number is not too large.
fn with_digit(n: u32, b: u8) -> Option<u32>
    ensures { option_of result ≡ digit (some n) b }
{
    if !b.is_ascii_digit() {
        return None;
    }
    n.checked_mul(10)?.checked_add((b - b'0') as u32)
}

// A byte, no space, of the number that is being read.
fn more(kind: Kind, count: usize, b: u8, numbers: &mut [u32]) -> Reading
    requires { length numbers.old ≡ 384006 }
    ensures { (w name : List ℕ) → state_of result w numbers.new name
        ≡ longer (code_of kind) (take count numbers.old) (get_or numbers.old count 0) b }
{
    if count >= MOST {
        return Reading::Spoiled;
    }
    match with_digit(numbers[count], b) {
        Some(n) => {
            numbers[count] = n;
            Reading::InNumber { kind, count }
        }
        None => Reading::Spoiled,
    }
}

// The first byte of a number.
pub fn first(kind: Kind, count: usize, b: u8, numbers: &mut [u32]) -> Reading
    requires { length numbers.old ≡ 384006 }
    ensures { (w name : List ℕ) → state_of result w numbers.new name
        ≡ longer (code_of kind) (take count numbers.old) 0 b }
{
    if count >= MOST {
        return Reading::Spoiled;
    }
    numbers[count] = 0;
    more(kind, count, b, numbers)
}

// A byte after a digit.
pub fn next(kind: Kind, count: usize, b: u8, numbers: &mut [u32]) -> Reading
    requires { length numbers.old ≡ 384006 }
    ensures { (w name : List ℕ) → state_of result w numbers.new name
        ≡ step (in_number (code_of kind) (take count numbers.old) (get_or numbers.old count 0)) b }
{
    if b != SPACE {
        return more(kind, count, b, numbers);
    }
    if count >= MOST {
        return Reading::Spoiled;
    }
    Reading::Between {
        kind,
        count: count + 1,
    }
}
