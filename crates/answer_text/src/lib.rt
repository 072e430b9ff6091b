// Answers: text that waits in a block of 64 KB, and is handed to standard output when the block is full or a caller says so.
#![tactic(auto)]

ghost use Rattle.std.specs.Prelude.{◌≡◌, ℕ, [], ◌∷◌, ◌++◌, ◌+◌, ◌≤◌, length, cond, map};
ghost use Rattle.arrayvec.specs.ArrayVec.{array_vec_len};
ghost use Rattle.geom.specs.Refusals.{answer_of, number};
ghost use Rattle.answer_text.specs.Text as Text;
ghost use Rattle.answer_text.specs.Text.{decimal};
ghost use Rattle.answer_text.specs.Added.{handed_over, waits, Says};

pub mod picture;

use arrayvec::ArrayVec;
use geom::refusal::Refusal;
use std::io::{Stdout, Write};
use std::marker::Model;

// A number that is written behind a space.
pub trait Number: Copy {
    ghost value: { Self → ℕ };

    fn wide(self) -> u64
        ensures { result ≡ value self };
}

// 0 or 1.
impl Number for bool {
    ghost value = { λ b. cond b 1 0 };

    fn wide(self) -> u64 {
        u64::from(self)
    }
}

impl Number for u8 {
    ghost value = { λ n. n };

    fn wide(self) -> u64 {
        u64::from(self)
    }
}

impl Number for u32 {
    ghost value = { λ n. n };

    fn wide(self) -> u64 {
        u64::from(self)
    }
}

impl Number for u64 {
    ghost value = { λ n. n };

    fn wide(self) -> u64 {
        self
    }
}

impl Number for usize {
    ghost value = { λ n. n };

    fn wide(self) -> u64 {
        self as u64
    }
}

impl Number for Refusal {
    ghost value = { λ refusal. number refusal };

    fn wide(self) -> u64 {
        u64::from(self.number())
    }
}

// An answer: 0, or the number that a call was refused with.
impl Number for Result<(), Refusal> {
    ghost value = { λ answer. answer_of answer };

    fn wide(self) -> u64 {
        match self {
            Ok(()) => 0,
            Err(refusal) => refusal.wide(),
        }
    }
}

// `block` is what waits. `sent` bytes were handed to standard output before it, as far as 64 bits count.
#[derive(Drop)]
pub struct Output {
    stdout: Stdout,
    block: ArrayVec<u8, 65536>,
    sent: u64,
}

impl Model for Output {
    ghost use Rattle.std.specs.Prelude.{◌≤◌, length};
    ghost use Rattle.answer_text.specs.Added.{Output as Waits};

    ghost Value = { Waits };

    ghost view = { λ o. record { bytes = o.block.items; sent = o.sent } };

    ghost invariant = { λ o. (length o.block.items ≤ 65536) × (o.sent ≤ 18446744073709551615) };
}

impl Output {
    pub fn new(stdout: Stdout) -> Output
        ensures { waits result ≡ record { at = 0; sent = 0 } }
    {
        Output {
            stdout,
            block: ArrayVec::new(),
            sent: 0,
        }
    }

    // Writes what waits. No other function writes to standard output. Whether the system took all of it is not looked
    // at: there is nobody to tell.
    pub fn flush(&mut self)
        ensures { waits self.new ≡ handed_over (waits self.old) }
    {
        let _ = self.stdout.write_all(self.block.as_slice());
        self.sent = self.sent.saturating_add(self.block.len() as u64);
        self.block.clear();
    }

    // Room for one more number, its sign and a space. Nothing is added.
    pub fn make_room(&mut self)
        ensures { Says [] self.old self.new × (length self.new.bytes + 32 ≤ 65536) }
    {
        if self.block.remaining_capacity() < 32 {
            self.flush();
        }
    }

    pub fn byte(&mut self, b: u8)
        ensures { Says (Text.sign b ∷ []) self.old self.new }
    {
        self.make_room();
        self.block.push(b);
    }

    // The number that a line begins with.
    pub fn number(&mut self, n: u64)
        ensures { Says (Text.first n ∷ []) self.old self.new }
    {
        self.make_room();
        put_number(&mut self.block, n);
    }

    // A number that is not the first word of its line.
    pub fn more<N: Number>(&mut self, n: N)
        ensures { Says (Text.number (N.value n) ∷ []) self.old self.new }
    {
        self.make_room();
        self.block.push(b' ');
        put_number(&mut self.block, n.wide());
    }

    // The numbers of a list, each after a space.
    pub fn all<N: Number>(&mut self, list: &[N])
        ensures { Says (map (λ n. Text.number (N.value n)) list.now) self.old self.new }
    {
        self.make_room();
        for &n in list {
            self.more(n);
        }
    }

    pub fn signed(&mut self, z: i16)
        ensures { Says (Text.signed z ∷ []) self.old self.new }
    {
        self.byte(b' ');
        if z < 0 {
            self.byte(b'-');
        }
        self.number(u64::from(z.unsigned_abs()));
    }

    pub fn word(&mut self, text: &[u8])
        ensures { Says (Text.word text.now ∷ []) self.old self.new }
    {
        self.byte(b' ');
        for &b in text {
            self.byte(b);
        }
    }

    pub fn end(&mut self)
        ensures { Says (Text.end ∷ []) self.old self.new }
    {
        self.byte(b'\n');
    }

    // A line of an answer alone.
    pub fn answer<N: Number>(&mut self, answer: N)
        ensures { Says (Text.line (N.value answer) []) self.old self.new }
    {
        self.number(answer.wide());
        self.end();
    }

    // A line of the answer 0 and a count.
    pub fn counted(&mut self, n: usize)
        ensures { Says (Text.line 0 (Text.number n ∷ [])) self.old self.new }
    {
        self.number(0);
        self.more(n);
        self.end();
    }

    // The line for what the program cannot lend or write.
    pub fn refused(&mut self)
        ensures { Says Text.beyond self.old self.new }
    {
        self.byte(b'!');
        self.end();
    }

    pub fn malformed(&mut self, line: u64)
        ensures { Says (Text.malformed line) self.old self.new }
    {
        self.byte(b'?');
        self.more(line);
        self.end();
    }
}

fn put_number<const N: usize>(block: &mut ArrayVec<u8, N>, n: u64)
    requires { array_vec_len block.old + 20 ≤ N }
    ensures put { block.new.items ≡ block.old.items ++ decimal n }
    ensures len { array_vec_len block.new ≤ array_vec_len block.old + 20 }
{
    let mut digits = [0u8; 20];
    let k = io::decimal(n, &mut digits);
    // never refused, since there is room for twenty
    let _ = block.try_extend_from_slice(&digits[..k]);
}
