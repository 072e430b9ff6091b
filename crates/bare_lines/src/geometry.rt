// The lines of bare geometry.
ghost use Rattle.std.specs.Prelude.{◌≡◌, ◌≤◌, ◌∷◌, take};
ghost use Rattle.geom.specs.Bare.{BareNotIntersect, Tested, tested_of, united_of, met, not_intersect_of, bare_union, bare_intersect, bare_pieces, answer14, both_fit};
ghost use Rattle.geom.specs.Refusals.{option_of};
ghost use Rattle.answer_text.specs.Text.{number, rectangle, rectangles};
ghost use Rattle.answer_text.specs.Added.{Says};
ghost use Rattle.bare_lines.specs.Told.{rectangle_or, met_line, united_line, pieces_line, tested_line, rect_line};

use crate::numbers;
use crate::numbers::Numbers;
use answer_text::Output;
use geom::refusal::Refusal;
use geom::{Pieces, Rect};
use script::kind::{Kind, Numbered, is};

// A number that is none of the five kinds is taken for the last, `within`.
pub fn rect_line<K: Numbered>(k: K, ns: &Numbers, out: &mut Output)
    ensures { Says (rect_line (K.code k) ns.now) out.old out.new }
{
    let a = numbers::rect(ns, 0);
    let b = numbers::rect(ns, 4);
    if is(k, Kind::Intersect) {
        return found(a.intersect(b), out);
    }
    if is(k, Kind::Pieces) {
        return pieces(a, b, out);
    }
    if is(k, Kind::Union) {
        return united(a.union(b), out);
    }
    if is(k, Kind::Contains) {
        return tested(a.contains(numbers::pos(ns, 4)), out);
    }
    if is(k, Kind::ContainsRect) {
        return tested(a.contains_rect(b), out);
    }
    tested(a.within(ns[4], ns[5]), out);
}

pub fn write_rect(r: Rect, out: &mut Output)
    ensures { Says (rectangle r) out.old out.new }
{
    out.more(r.pos.x);
    out.more(r.pos.y);
    out.more(r.dims.w);
    out.more(r.dims.h);
}

fn write_rect_or_none(rect: Option<Rect>, out: &mut Output)
    ensures { Says (rectangle_or (option_of rect)) out.old out.new }
{
    match rect {
        Some(rect) => write_rect(rect, out),
        None => out.word(b"none"),
    }
}

// A rectangle, or `none`.
pub fn found(found: Result<Option<Rect>, Refusal>, out: &mut Output)
    ensures { Says (met_line (met found)) out.old out.new }
{
    match found {
        Ok(rect) => {
            out.number(0);
            write_rect_or_none(rect, out);
            out.end();
        }
        Err(refusal) => out.answer(refusal),
    }
}

fn united(united: Result<Rect, Refusal>, out: &mut Output)
    ensures { Says (united_line (united_of united)) out.old out.new }
{
    match united {
        Ok(rect) => {
            out.number(0);
            write_rect(rect, out);
            out.end();
        }
        Err(refusal) => out.answer(refusal),
    }
}

fn pieces(a: Rect, b: Rect, out: &mut Output)
    ensures { Says (pieces_line (answer14 (both_fit a b)) (bare_pieces a b)) out.old out.new }
{
    match a.not_intersect(b) {
        Ok(pieces) => {
            out.number(0);
            write_pieces(pieces, out);
            out.end();
        }
        Err(refusal) => out.answer(refusal),
    }
}

fn write_pieces(pieces: Pieces, out: &mut Output)
    requires { pieces.count ≤ 4 }
    ensures { Says (number pieces.count ∷ rectangles (take pieces.count pieces.rects)) out.old out.new }
{
    out.more(pieces.count);
    write_rects(&pieces.rects[..pieces.count], out);
}

fn write_rects(rects: &[Rect], out: &mut Output)
    ensures { Says (rectangles rects.now) out.old out.new }
{
    out.make_room();
    for &rect in rects {
        write_rect(rect, out);
    }
}

fn tested(yes: Result<bool, Refusal>, out: &mut Output)
    ensures { Says (tested_line (tested_of yes)) out.old out.new }
{
    match yes {
        Ok(yes) => {
            out.number(0);
            out.more(yes);
            out.end();
        }
        Err(refusal) => out.answer(refusal),
    }
}
