// The line that asks which windows lie under many points.
ghost use Rattle.std.specs.Prelude.{◌*◌, ◌≤◌, length, take, ◌≡◌};
ghost use Rattle.geom.specs.Refusals.{answer_of};
ghost use Rattle.windows.specs.View.{group, Given};
ghost use Rattle.script.specs.Kind as Code;
ghost use Rattle.script.specs.Kind.{code_of};
ghost use Rattle.bare_lines.specs.Numbers.{Sound};
ghost use Rattle.answer_text.specs.Added.{Says};
ghost use Rattle.replay.specs.Told.{hits_line};
ghost use Rattle.replay.specs.Ready.{Ready};
ghost use Rattle.replay.specs.Played.{Pixels, HitsPart, Writes};

use crate::lend;
use crate::player::Player;
use answer_text::Output;
use bare_lines::numbers::Numbers;
use geom::refusal::Refusal;
use script::Line;
use windows::Session;

// The call is lent the front of the list.
fn hits_at(s: &Session, points: &[u32], list: &mut [u32], len: usize) -> Result<(), Refusal>
    requires { Given s.now × (len ≤ length list.old) }
    ensures { HitsPart (group s.now) points.now len list.old (answer_of result) list.new }
{
    s.hits(points, &mut list[..len])
}

fn write_hits(answer: Result<(), Refusal>, n: usize, list: &[u32; 7812], out: &mut Output)
    requires { answer_of answer ≡ 0 → n ≤ 7812 }
    ensures { Says (hits_line (answer_of answer) n list.now) out.old out.new }
{
    match answer {
        Ok(()) => {
            out.number(0);
            out.all(&list[..n]);
            out.end();
        }
        Err(refusal) => out.answer(refusal),
    }
}

// The numbers of the line are the points; the answers go to the front of the list.
pub fn hits(p: &mut Player, line: Line, ns: &Numbers, list: &mut [u32; 7812])
    requires { Ready p.old × Sound line ns.now }
    ensures { (a : Pixels) → code_of line.kind ≡ Code.hits → Writes line ns.now p.old a p.new a }
{
    let len = lend::list_len(p, 96);
    let answer = hits_at(&p.session, &ns[..line.count], list, len);
    p.list = None;
    write_hits(answer, 3 * (line.count / 2), list, &mut p.out);
}
