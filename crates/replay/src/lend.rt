// The lines that are lent a store, a screen or a list, and those that say how much of them is lent.
ghost use Rattle.std.specs.Prelude.{◌≡◌, ◌-◌, ◌*◌, ◌≤◌, length, take, drop, true};
ghost use Rattle.geom.specs.Refusals.{answer_of, value_or, listing_of, Listing};
ghost use Rattle.rules.specs.Panels.{Write};
ghost use Rattle.rules.specs.Calls.{does};
ghost use Rattle.windows.specs.View.{group, done, written, Given, MeetsStore, MeetsAltered, MeetsScreen};
ghost use Rattle.script.specs.Kind as Code;
ghost use Rattle.script.specs.Kind.{code_of};
ghost use Rattle.bare_lines.specs.Numbers.{num, id_of, rect_at, Sound};
ghost use Rattle.answer_text.specs.Added.{Says};
ghost use Rattle.replay.specs.Called.{Picked, store_call, is_counted, is_lend, most_lent, screen_call, OnStore, Resizes, OnScreen};
ghost use Rattle.replay.specs.Told.{rects_line, wrote_line};
ghost use Rattle.replay.specs.Ready.{Ready};
ghost use Rattle.replay.specs.Played.{pixels, screen_len, list_len, WritesPart, DrawsPart, ListsPart, Stores, Draws, Writes, PlaysAt};

use crate::player::Player;
use answer_text::Output;
use bare_lines::numbers;
use bare_lines::numbers::Numbers;
use geom::refusal::Refusal;
use script::Line;
use script::kind::Kind;
use windows::Session;

// The data of a blit are the numbers of the line after its first six.
fn blit(s: &mut Session, ns: &Numbers, data: &[u32], store: &mut [u32]) -> Result<usize, Refusal>
    requires { Given s.old }
    ensures { MeetsAltered (id_of ns.now) (Write.blit (rect_at ns.now 1) «data».now (num ns.now 5)) store.old s.old (written s.new result) store.new }
{
    let area = numbers::rect(ns, 1);
    s.blit(numbers::id(ns), area, ns[5] as usize, data, store)
}

// The calls that resize windows, and count no pixels.
fn resize(s: &mut Session, line: Line, ns: &Numbers, store: &mut [u32]) -> Result<(), Refusal>
    requires { Given s.old × Resizes (code_of line.kind) }
    ensures { Picked (store_call (code_of line.kind) line.count ns.now store.old) (λ c. MeetsStore c s.old (done s.new (answer_of result)) store.new) }
{
    let id = numbers::id(ns);
    match line.kind {
        Kind::Maximise => s.maximise_window(id, store),
        Kind::UpdateDims => s.update_dims(store),
        _ => s.resize(id, numbers::dims(ns, 1), store),
    }
}

// The calls that write the store. The number is that of the pixels altered, where the line counts them.
fn write(s: &mut Session, line: Line, ns: &Numbers, store: &mut [u32]) -> Result<usize, Refusal>
    requires { Given s.old × Sound line ns.now × OnStore (code_of line.kind) }
    ensures { Picked (store_call (code_of line.kind) line.count ns.now store.old) (λ c. MeetsStore c s.old (done s.new (answer_of result)) store.new × (is_counted (code_of line.kind) ≡ true → value_or 0 result ≡ (does (group s.old) c).altered)) }
{
    match line.kind {
        Kind::Fill => s.fill(numbers::id(ns), numbers::rect(ns, 1), ns[5], store),
        Kind::Blit => blit(s, ns, &ns[6..line.count], store),
        _ => {
            resize(s, line, ns, store)?;
            Ok(0)
        }
    }
}

fn lent(
    s: &mut Session,
    line: Line,
    ns: &Numbers,
    store: &mut [u32],
    lent: usize,
) -> Result<usize, Refusal>
    requires { Given s.old × Sound line ns.now × OnStore (code_of line.kind) × (lent ≤ length store.old) }
    ensures { Picked (store_call (code_of line.kind) line.count ns.now (take lent store.old))
        (λ c. WritesPart (is_counted (code_of line.kind)) c lent store.old s.old (written s.new result) store.new) }
{
    write(s, line, ns, &mut store[..lent])
}

// Are the pixels altered written too?
fn counts(k: Kind) -> bool
    ensures { result ≡ is_counted (code_of k) }
{
    k == Kind::Fill || k == Kind::Blit
}

// The answer and, of a fill or a blit, the pixels altered.
fn write_altered(altered: Result<usize, Refusal>, counts: bool, out: &mut Output)
    ensures { Says (wrote_line counts (answer_of altered) (value_or 0 altered)) out.old out.new }
{
    match altered {
        Ok(n) if counts => out.counted(n),
        Ok(_) => out.answer(Ok(())),
        Err(refusal) => out.answer(refusal),
    }
}

pub fn stored(p: &mut Player, line: Line, ns: &Numbers, store: &mut [u32; 6144000])
    requires { Ready p.old × Sound line ns.now × OnStore (code_of line.kind) }
    ensures { Picked (store_call (code_of line.kind) line.count ns.now (take p.old.lent store.old))
        (λ c. Stores (code_of line.kind) c p.old store.old p.new store.new) }
{
    let altered = lent(&mut p.session, line, ns, store, p.lent);
    write_altered(altered, counts(line.kind), &mut p.out);
}

// The calls that draw on the screen.
fn draw(
    s: &mut Session,
    k: Kind,
    ns: &Numbers,
    store: &[u32],
    screen: &mut [u32],
) -> Result<(), Refusal>
    requires { Given s.old }
    ensures { MeetsScreen (screen_call (code_of k) ns.now store.now screen.old) s.old (done s.new (answer_of result)) screen.new }
{
    match k {
        Kind::Portion => s.portion(ns[0], ns[1], store, screen),
        _ => s.redraw(ns[0] == 1, ns[1], ns[2], store, screen),
    }
}

fn draw_part(
    s: &mut Session,
    k: Kind,
    ns: &Numbers,
    store: &[u32],
    screen: &mut [u32],
    len: usize,
) -> Result<(), Refusal>
    requires { Given s.old × (len ≤ length screen.old) }
    ensures { DrawsPart (screen_call (code_of k) ns.now store.now (take len screen.old)) len screen.old s.old (done s.new (answer_of result)) screen.new }
{
    draw(s, k, ns, store, &mut screen[..len])
}

// How many pixels of the screen a line is lent: what was said, or what its size asks for.
fn screen_len(p: &Player, k: Kind, ns: &Numbers) -> u64
    ensures { result ≡ screen_len p.now (code_of k) ns.now }
{
    match p.screen {
        Some(len) => len as u64,
        None if k == Kind::Portion => numbers::size(ns[0], ns[1]),
        None => numbers::size(ns[1], ns[2]),
    }
}

fn drawn(
    p: &mut Player,
    k: Kind,
    ns: &Numbers,
    store: &[u32; 6144000],
    screen: &mut [u32; 3072000],
    len: usize,
)
    requires { Ready p.old × (len ≤ 3072000) }
    ensures { Draws (code_of k) ns.now len p.old store.now screen.old p.new screen.new }
{
    let answer = draw_part(&mut p.session, k, ns, &store[..p.lent], screen, len);
    p.screen = None;
    p.out.answer(answer);
}

// The lines redraw and portion.
pub fn redraw(
    p: &mut Player,
    line: Line,
    ns: &Numbers,
    store: &[u32; 6144000],
    screen: &mut [u32; 3072000],
)
    requires { Ready p.old × OnScreen (code_of line.kind) }
    ensures { Writes line ns.now p.old (pixels store.now screen.old) p.new (pixels store.now screen.new) }
{
    let len = screen_len(p, line.kind, ns);
    if 3072000 < len {
        return p.out.refused();
    }
    drawn(p, line.kind, ns, store, screen, len as usize);
}

// How many numbers of the list a line is lent: what was said, or as many as else.
pub fn list_len(p: &Player, other: usize) -> usize
    requires { Ready p.now × (other ≤ 7812) }
    ensures { (result ≡ list_len other p.now) × (result ≤ 7812) }
{
    p.list.unwrap_or(other)
}

fn listed(s: &Session, ns: &Numbers, list: &mut [u32], len: usize) -> Result<usize, Refusal>
    requires { Given s.now × (len ≤ length list.old) }
    ensures { ListsPart (group s.now) (id_of ns.now) len list.old (listing_of result) list.new }
{
    s.visible(numbers::id(ns), &mut list[..len])
}

// How many rectangles there are and then these, which stand at the front of the list.
pub fn write_rects(count: Result<usize, Refusal>, list: &[u32; 7812], out: &mut Output)
    requires { 4 * value_or 0 count ≤ 7812 }
    ensures { Says (rects_line (answer_of count) (value_or 0 count) list.now) out.old out.new }
{
    match count {
        Ok(count) => {
            out.number(0);
            out.more(count);
            out.all(&list[..4 * count]);
            out.end();
        }
        Err(refusal) => out.answer(refusal),
    }
}

pub fn visible(p: &mut Player, ns: &Numbers, list: &mut [u32; 7812])
    requires { Ready p.old }
    ensures { PlaysAt Code.visible ns.now p.old p.new }
{
    let len = list_len(p, 1984);
    let count = listed(&p.session, ns, list, len);
    p.list = None;
    write_rects(count, list, &mut p.out);
}

// How much a line may lend: what the program has.
fn most_lent(k: Kind) -> u32
    requires { is_lend (code_of k) ≡ true }
    ensures { result ≡ most_lent (code_of k) }
{
    match k {
        Kind::Lend => 6144000,
        Kind::LendScreen => 3072000,
        Kind::LendList => 7812,
        Kind::LendTarget => 65536,
        _ => 2048,
    }
}

// The lend lines: more than the program has is refused.
pub fn lend(p: &mut Player, k: Kind, ns: &Numbers)
    requires { Ready p.old × (is_lend (code_of k) ≡ true) }
    ensures { PlaysAt (code_of k) ns.now p.old p.new }
{
    if most_lent(k) < ns[0] {
        return p.out.refused();
    }
    p.out.answer(Ok(()));
    let n = ns[0] as usize;
    match k {
        Kind::Lend => p.lent = n,
        Kind::LendScreen => p.screen = Some(n),
        Kind::LendList => p.list = Some(n),
        Kind::LendTarget => p.target = Some(n),
        _ => p.sheet = Some(n),
    }
}
