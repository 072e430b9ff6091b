// The end of a line: is it a call that the tables have?
ghost use Rattle.std.specs.Prelude.{◌≡◌, ◌&&◌, length, ◌≤◌};
ghost use Rattle.script.specs.Kind.{code_of};
ghost use Rattle.script.specs.Script.{all, is_byte, counted, is_event, ranged, name_fits};
ghost use Rattle.script.specs.Machine.{no_call, Checked, Ended};

use crate::kind::Kind;
use crate::name::LONGEST;
use crate::number::MOST;
use crate::{Line, Reading, table};

// Is each of them a byte's?
fn are_bytes(numbers: &[u32]) -> bool
    ensures { result ≡ all is_byte numbers.now }
{
    numbers.iter().all(|n| *n <= 255)
}

// Of `who KIND A B C D`: is there such a kind, and are button and count a byte's?
fn is_event(numbers: &[u32]) -> bool
    requires { length numbers.now ≡ 384006 }
    ensures { result ≡ is_event numbers.now }
{
    1 <= numbers[0] && (numbers[0] <= 9 && (numbers[3] <= 255 && numbers[4] <= 255))
}

// Are the numbers of the line those that may stand there?
fn is_ranged(kind: Kind, count: usize, numbers: &[u32]) -> bool
    requires { (count ≤ 384006) × (length numbers.now ≡ 384006) }
    ensures { result ≡ ranged (code_of kind) count numbers.now }
{
    match kind {
        Kind::MouseDown | Kind::MouseUp => numbers[2] <= 255,
        Kind::MouseClick => numbers[2] <= 255 && numbers[3] <= 255,
        Kind::Redraw | Kind::Begin | Kind::Dim => numbers[0] <= 1,
        Kind::SetScanline => 6 + numbers[5] as usize <= count,
        Kind::ReadSheet => are_bytes(&numbers[..count]),
        Kind::Who => is_event(numbers),
        _ => true,
    }
}

// A picture has a name, and no other line has.
fn name_fits(kind: Kind, name: usize) -> bool
    ensures { result ≡ name_fits (code_of kind) name }
{
    match kind {
        Kind::Picture => 0 < name,
        _ => name == 0,
    }
}

fn no_call(kind: Kind) -> Line
    ensures { result ≡ no_call kind }
{
    Line {
        kind,
        count: 0,
        name: 0,
    }
}

fn is_call(kind: Kind, count: usize, name: usize, numbers: &[u32]) -> bool
    requires { (count ≤ 384006) × (length numbers.now ≡ 384006) }
    ensures { result ≡ counted (code_of kind) count && (ranged (code_of kind) count numbers.now && name_fits (code_of kind) name) }
{
    table::is_counted(kind, count) && (is_ranged(kind, count, numbers) && name_fits(kind, name))
}

// The line of this kind with so many numbers and so long a name, if it is a call; else it is malformed.
fn checked(kind: Kind, count: usize, name: usize, numbers: &[u32]) -> Line
    requires { (count ≤ 384006) × (name ≤ 64) × (length numbers.now ≡ 384006) }
    ensures { Checked (code_of kind) count name numbers.now result }
{
    if is_call(kind, count, name, numbers) {
        return Line { kind, count, name };
    }
    no_call(Kind::Malformed)
}

pub fn line_of(reading: Reading, word: &[u8], numbers: &[u32]) -> Line
    requires { length numbers.now ≡ 384006 }
    ensures { Ended reading word.now numbers.now result }
{
    match reading {
        Reading::AtStart | Reading::InComment => no_call(Kind::Passed),
        Reading::InWord { letters } => checked(table::kind_of(word, letters), 0, 0, numbers),
        Reading::Between { kind, count } => checked(kind, count.min(MOST), 0, numbers),
        Reading::InNumber { kind, count } => {
            if count >= MOST {
                return no_call(Kind::Malformed);
            }
            checked(kind, count + 1, 0, numbers)
        }
        Reading::InName { kind, count, named } | Reading::AfterName { kind, count, named } => {
            checked(kind, count.min(MOST), named.min(LONGEST), numbers)
        }
        Reading::Spaces | Reading::Spoiled => no_call(Kind::Malformed),
    }
}
