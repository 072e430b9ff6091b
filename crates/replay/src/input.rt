// The script, read in blocks from standard input.
ghost use Rattle.std.specs.Prelude.{◌≡◌, List, ℕ, ◌≤◌, length};
ghost use Rattle.script.specs.Machine.{Reads};
ghost use Rattle.replay.specs.Ready.{Ready};
ghost use Rattle.replay.specs.Played.{pixels};
ghost use Rattle.replay.specs.Run.{Finished};
ghost use Rattle.replay.specs.inner.Run.{Ends, HearsOut, RunsTo};

use crate::player::Player;
use bare_lines::numbers::Numbers;
use script::Reading;
use std::io::{Read, Stdin, Stdout};
use std::rt::Files;

pub fn play<R: Files>(
    files: &R,
    stdin: Stdin,
    stdout: Stdout,
    store: &mut [u32; 6144000],
    screen: &mut [u32; 3072000],
    list: &mut [u32; 7812],
    ns: &mut Numbers,
    word: &mut [u8; 16],
    name: &mut [u8; 64],
    input: &mut [u8; 65536],
)
    ensures { Finished (pixels store.old screen.old) }
{
    let mut p = Player::fresh(stdout);
    let mut reading = Reading::fresh();
    // A loop has to end, and nothing says that the input does: it has more turns than any run uses up.
    for _turn in 0..18446744073709551615u64 {
        // A person at a terminal sees the answers before the next line is read.
        p.out.flush();
        let n = next(stdin, input);
        if n == 0 {
            break;
        }
        sized(name);
        reading = block(
            files,
            &mut p,
            reading,
            &input[..n],
            store,
            screen,
            list,
            ns,
            word,
            name,
        );
    }
    sized(name);
    finish(files, &mut p, reading, store, screen, list, ns, word, name);
}

// Plays the line that was read last, which may lack its newline, and hands over all that waits.
fn finish<R: Files>(
    files: &R,
    p: &mut Player,
    reading: Reading,
    store: &mut [u32; 6144000],
    screen: &mut [u32; 3072000],
    list: &mut [u32; 7812],
    ns: &mut Numbers,
    word: &[u8; 16],
    name: &[u8; 64],
)
    requires { Ready p.old }
    ensures { (bs : List ℕ) → length name.now ≡ 64 → Reads bs reading word.now ns.old name.now
        → Ends bs p.old (pixels store.old screen.old) p.new (pixels store.new screen.new) }
{
    ended(files, p, reading, store, screen, list, ns, word, name);
    p.out.flush(); // none waits any more
}

// Does nothing. It says how long the name is, to a caller that lent it to be written.
fn sized(name: &[u8; 64])
    ensures { length name.now ≡ 64 }
{
    lent(name);
}

// Does nothing. An array that is lent as a slice is known to have its length.
fn lent(bytes: &[u8]) {}

// Plays the line that has been read.
fn ended<R: Files>(
    files: &R,
    p: &mut Player,
    reading: Reading,
    store: &mut [u32; 6144000],
    screen: &mut [u32; 3072000],
    list: &mut [u32; 7812],
    ns: &mut Numbers,
    word: &[u8; 16],
    name: &[u8; 64],
)
    requires { Ready p.old }
    ensures ready { Ready p.new }
    ensures by_index { (bs : List ℕ) → length name.now ≡ 64 → Reads bs reading word.now ns.old name.now
        → HearsOut bs p.old (pixels store.old screen.old) p.new (pixels store.new screen.new) }
{
    let line = script::line(reading, word, ns);
    p.count_line();
    p.line(files, line, ns, name, store, screen, list);
}

// How many bytes the next block has: none at the end of the input, or where it cannot be read.
fn next(mut stdin: Stdin, input: &mut [u8]) -> usize
    ensures { result ≤ length input.new }
{
    stdin.read(input).unwrap_or(0)
}

// Plays the lines that end in a block. A turn reads on to the next newline, so it is a `while`.
fn block<R: Files>(
    files: &R,
    p: &mut Player,
    begun: Reading,
    bytes: &[u8],
    store: &mut [u32; 6144000],
    screen: &mut [u32; 3072000],
    list: &mut [u32; 7812],
    ns: &mut Numbers,
    word: &mut [u8; 16],
    name: &mut [u8; 64],
) -> Reading
    requires { Ready p.old }
    ensures ready { Ready p.new }
    ensures by_index { (bs : List ℕ) → length name.old ≡ 64 → Reads bs begun word.old ns.old name.old
        → RunsTo (record { player = p.old; pixels = pixels store.old screen.old; line = bs }) bytes.now
        p.new (pixels store.new screen.new) result word.new ns.new name.new }
{
    let mut reading = begun;
    let mut at: usize = 0;
    while at < bytes.len() {
        let step = script::read(reading, bytes, at, word, ns, name);
        reading = step.reading;
        at = step.at;
        if at < bytes.len() {
            sized(name);
            ended(files, p, reading, store, screen, list, ns, word, name);
            reading = Reading::fresh();
            at += 1;
        }
    }
    reading
}
