// Plays call scripts: reads calls from standard input, one on a line, makes each on the library, and writes one line for each.
//
// CALL-SCRIPT.md says what a line means. The store, the screen and the visible list are the program's own: it lends them.
#![tactic(auto)]

ghost use Rattle.std.specs.Prelude.{◌≡◌, IfOk, vec_len};

mod calls;
mod displays;
mod events;
mod hits;
mod input;
mod lend;
mod looks;
mod memory;
mod player;
mod share;
mod sheets;
mod show;
mod stale;
mod state;
mod times;
mod waiting;
mod who;

use std::alloc::{AllocError, Global};
use std::io::{Stdin, Stdout};
use std::process::ExitCode;
use std::rt::Files;

// The arrays lie in memory that is asked for, since a shell often gives a stack that is smaller.
fn store_pixels(alloc: Global) -> Result<Vec<u32>, AllocError>
    ensures { IfOk result (λ v. vec_len v ≡ 6144000) }
{
    vec![in alloc; 0u32; 6144000]
}

fn screen_pixels(alloc: Global) -> Result<Vec<u32>, AllocError>
    ensures { IfOk result (λ v. vec_len v ≡ 3072000) }
{
    vec![in alloc; 0u32; 3072000]
}

fn list_numbers(alloc: Global) -> Result<Vec<u32>, AllocError>
    ensures { IfOk result (λ v. vec_len v ≡ 7812) }
{
    vec![in alloc; 0u32; 7812]
}

fn line_numbers(alloc: Global) -> Result<Vec<u32>, AllocError>
    ensures { IfOk result (λ v. vec_len v ≡ 384006) }
{
    vec![in alloc; 0u32; 384006]
}

// Made apart from where it is used: a function with no clause that does nothing else.
fn block() -> [u8; 65536] {
    [0u8; 65536]
}

// Where there is no memory for the arrays, nothing is played.
fn run<R: Files>(files: &R, alloc: Global, stdin: Stdin, stdout: Stdout) -> Result<(), AllocError> {
    let mut store = store_pixels(alloc)?;
    let mut screen = screen_pixels(alloc)?;
    let mut list = list_numbers(alloc)?;
    let mut numbers = line_numbers(alloc)?;
    let mut word = [0u8; 16];
    let mut name = [0u8; 64];
    let mut input = block();
    input::play(
        files,
        stdin,
        stdout,
        store.as_mut_slice().as_mut_array().unwrap(),
        screen.as_mut_slice().as_mut_array().unwrap(),
        list.as_mut_slice().as_mut_array().unwrap(),
        numbers.as_mut_slice().as_mut_array().unwrap(),
        &mut word,
        &mut name,
        &mut input,
    );
    Ok(())
}

fn main(rt: HostRuntime) -> ExitCode {
    if run(&rt, rt.alloc(), rt.stdin(), rt.stdout()).is_err() {
        memory::refuse(rt.stderr());
        return ExitCode::FAILURE;
    }
    ExitCode::SUCCESS
}
