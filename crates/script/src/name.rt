// The name of a picture.
ghost use Rattle.std.specs.Prelude.{◌≡◌, List, ℕ, length, take};
ghost use Rattle.script.specs.Kind.{code_of};
ghost use Rattle.script.specs.Script.{name_byte};
ghost use Rattle.script.specs.Machine.{may_follow, state_of, in_name, step, named};

use crate::kind::Kind;
use crate::{Reading, SPACE};

// The most bytes of a name.
pub const LONGEST: usize = 64;

// Letters, digits, `-`, `_` and `.`
fn is_name_byte(b: u8) -> bool
    ensures { result ≡ name_byte b }
{
    b.is_ascii_alphanumeric() || (b == b'-' || (b == b'_' || b == b'.'))
}

// May the byte stand after `at` others of the name? No name begins with `.`
fn may_follow(at: usize, b: u8) -> bool
    ensures { result ≡ may_follow at b }
{
    if at == 0 && b == b'.' {
        return false;
    }
    at < LONGEST && is_name_byte(b)
}

// A byte, no space, of the name, of which there are `at` already.
pub fn more(kind: Kind, count: usize, at: usize, b: u8, name: &mut [u8]) -> Reading
    requires { length name.old ≡ 64 }
    ensures { (w ns : List ℕ) → state_of result w ns name.new
        ≡ named (code_of kind) (take count ns) (take at name.old) b }
{
    if !may_follow(at, b) {
        return Reading::Spoiled;
    }
    name[at] = b;
    Reading::InName {
        kind,
        count,
        named: at + 1,
    }
}

// A byte after one of the name.
pub fn next(kind: Kind, count: usize, named: usize, b: u8, name: &mut [u8]) -> Reading
    requires { length name.old ≡ 64 }
    ensures { (w ns : List ℕ) → state_of result w ns name.new
        ≡ step (in_name (code_of kind) (take count ns) (take named name.old)) b }
{
    if b == SPACE {
        return Reading::AfterName { kind, count, named };
    }
    more(kind, count, named, b, name)
}
