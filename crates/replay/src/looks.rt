// The lines of a closer look.
ghost use Rattle.std.specs.Prelude.{◌≡◌, ◌≤◌, List, ℕ, length, take, replicate};
ghost use Rattle.geom.specs.Refusals.{answer_of};
ghost use Rattle.windows.specs.View.{group, Given};
ghost use Rattle.script.specs.Kind.{code_of};
ghost use Rattle.bare_lines.specs.Told.{part_line};
ghost use Rattle.answer_text.specs.Added.{Says};
ghost use Rattle.replay.specs.Called.{OnTarget, size_at};
ghost use Rattle.replay.specs.Looks.{look_of, LooksPart, target_len, asks};
ghost use Rattle.replay.specs.Ready.{Ready, Next, untargeted};
ghost use Rattle.replay.specs.Played.{pixels, Writes};

use crate::player::Player;
use answer_text::Output;
use bare_lines::numbers::Numbers;
use bare_lines::{numbers, pixels};
use geom::refusal::Refusal;
use look::{Look, Zoom};
use script::Line;
use script::kind::Kind;
use windows::Session;

// The look that a line names.
fn look_of(k: Kind, ns: &Numbers) -> Look
    ensures { result ≡ look_of (code_of k) ns.now }
{
    let x = numbers::float(ns[1], ns[2]);
    let y = numbers::float(ns[3], ns[4]);
    match k {
        Kind::LookFit => Look {
            x,
            y,
            zoom: Zoom::Fit,
        },
        _ => Look {
            x,
            y,
            zoom: Zoom::Factor(numbers::float(ns[5], ns[6])),
        },
    }
}

// Where the target's width stands among the numbers of a line; its height is the next.
fn size_at(k: Kind) -> usize
    ensures { (result ≡ size_at (code_of k)) × (result ≤ 7) }
{
    match k {
        Kind::LookFit => 5,
        _ => 7,
    }
}

// How many pixels a target has: what was said, or what its size asks for.
fn target_len(p: &Player, k: Kind, ns: &Numbers) -> u64
    ensures { result ≡ target_len p.now (code_of k) ns.now }
{
    let at = size_at(k);
    match p.target {
        Some(len) => len as u64,
        None => numbers::size(ns[at], ns[at + 1]),
    }
}

// The call is lent the front of the target.
fn look_at(
    s: &Session,
    k: Kind,
    ns: &Numbers,
    store: &[u32],
    target: &mut [u32],
    len: usize,
) -> Result<(), Refusal>
    requires { Given s.now × (len ≤ length target.old) }
    ensures { LooksPart (group s.now) (code_of k) ns.now store.now len target.old (answer_of result) target.new }
{
    let at = size_at(k);
    let look = look_of(k, ns);
    s.look(
        numbers::id(ns),
        look,
        ns[at],
        ns[at + 1],
        store,
        &mut target[..len],
    )
}

// A target before a look: made apart, as the other arrays are.
fn ones() -> [u32; 65536]
    ensures { result ≡ replicate 65536 4294967295 }
{
    [4294967295u32; 65536]
}

fn write_target(answer: Result<(), Refusal>, target: &[u32], out: &mut Output)
    ensures { Says (part_line (answer_of answer) target.now) out.old out.new }
{
    match answer {
        Ok(()) => pixels::write_part::<Refusal>(Ok(target), out),
        Err(refusal) => out.answer(refusal),
    }
}

// It stands apart when it is compiled too: other lines need no stack for a target.
#[inline(never)]
fn looked(p: &mut Player, k: Kind, ns: &Numbers, store: &[u32; 6144000], len: usize)
    requires { Ready p.old × (len ≤ 65536) }
    ensures { Next (part_line (asks (group p.old.session) (code_of k) ns.now (take p.old.lent store.now) (replicate len 4294967295)).answer (asks (group p.old.session) (code_of k) ns.now (take p.old.lent store.now) (replicate len 4294967295)).target) (untargeted p.old) p.old.session p.new }
{
    let mut target = ones();
    let answer = look_at(&p.session, k, ns, &store[..p.lent], &mut target, len);
    p.target = None;
    write_target(answer, &target[..len], &mut p.out);
}

pub fn look(p: &mut Player, line: Line, ns: &Numbers, store: &[u32; 6144000])
    requires { Ready p.old × OnTarget (code_of line.kind) }
    ensures { (screen : List ℕ) → Writes line ns.now p.old (pixels store.now screen) p.new (pixels store.now screen) }
{
    let len = target_len(p, line.kind, ns);
    if 65536 < len {
        return p.out.refused();
    }
    looked(p, line.kind, ns, store, len as usize);
}
