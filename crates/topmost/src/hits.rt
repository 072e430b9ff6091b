// The topmost windows at many points, in one pass from the top of the order down. Document 02, N12.
ghost use Rattle.std.specs.Prelude.{◌≡◌, [], ◌∷◌, ◌++◌, ◌+◌, ◌*◌, ◌/◌, ◌%◌, ◌≤◌, length, drop};
ghost use Rattle.std.proofs.lemmas.List.Edits.{sets};
ghost use Rattle.geom.specs.Rect16.{rect_of};
ghost use Rattle.rules.specs.Hits.{each_point};
ghost use Rattle.order.specs.Ids.{nums};
ghost use Rattle.order.specs.inner.Frames.{frame_at, Shown};
ghost use Rattle.topmost.specs.inner.Hits.{three, at_point, Written, to_nobody, answered, hit_in};

use crate::has;
use geom::inner::rect16::Rect16;
use window::ids::WinId;

// The three numbers of point i. A point is written by its number: of the parts that `chunks_mut` lends nothing is known
// to a proof once they were written.
fn write_hit(answers: &mut [u32], i: usize, id: u32, x: u32, y: u32)
    requires { 3 * i + 3 ≤ length answers.old }
    ensures { answers.new ≡ sets answers.old (3 * i) (id ∷ x ∷ y ∷ []) }
{
    let at = 3 * i;
    answers[at] = id;
    answers[at + 1] = x;
    answers[at + 2] = y;
}

// No window has any of the first n points.
fn nobody(answers: &mut [u32], n: usize)
    requires { 3 * n ≤ length answers.old }
    ensures { Written answers.old (λ i. to_nobody) n answers.new }
{
    for i in 0..n {
        write_hit(answers, i, 16, 0, 0);
    }
}

// Point i is the window's if it contains it and no window had it.
fn look(id: WinId, area: Rect16, points: &[u32], answers: &mut [u32], i: usize)
    requires { (2 * i + 2 ≤ length points.now) × (3 * i + 3 ≤ length answers.old) }
    ensures { answers.new ≡ sets answers.old (3 * i) (at_point points.now i (answered id.0 (rect_of area) (three answers.old i))) }
{
    let x = points[2 * i];
    let y = points[2 * i + 1];
    if answers[3 * i] == 16 && has(area, x, y) {
        write_hit(
            answers,
            i,
            id.0,
            x - u32::from(area.x),
            y - u32::from(area.y),
        );
    }
}

// The same of the first n points.
fn look_all(id: WinId, area: Rect16, points: &[u32], answers: &mut [u32], n: usize)
    requires { (2 * n ≤ length points.now) × (3 * n ≤ length answers.old) }
    ensures { Written answers.old (λ i. at_point points.now i (answered id.0 (rect_of area) (three answers.old i))) n answers.new }
{
    for i in 0..n {
        look(id, area, points, answers, i);
    }
}

// Each window is looked at once, the highest first; a point that a higher one has is passed over.
pub fn hits(areas: &[Rect16; 16], shown: &[WinId], points: &[u32], answers: &mut [u32])
    requires shown { Shown areas.now shown.now (length shown.now) }
    requires fit { (length points.now % 2 ≡ 0) × (3 * (length points.now / 2) ≤ length answers.old) }
    ensures { answers.new ≡ each_point (hit_in (frame_at areas.now) (nums shown.now)) points.now ++ drop (3 * (length points.now / 2)) answers.old }
{
    let n = points.len() / 2;
    nobody(answers, n);
    for id in shown.iter().rev() {
        look_all(*id, areas[id.0 as usize], points, answers, n);
    }
}
