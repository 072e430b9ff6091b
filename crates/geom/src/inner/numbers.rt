// Rectangles as numbers, four for each: x, y, w, h. One is read, and one written.
ghost use Rattle.std.specs.Prelude.{◌≡◌, [], ◌∷◌, ◌+◌, ◌*◌, ◌≤◌, length};
ghost use Rattle.std.proofs.lemmas.List.Edits.{sets};
ghost use Rattle.geom.specs.Lists.{numbers, rect_at};

use crate::Rect;

// The i-th rectangle.
pub fn rect_at(list: &[u32], i: usize) -> Rect
    requires { 4 * (i + 1) ≤ length list.now }
    ensures { result ≡ rect_at list.now i }
{
    let at = 4 * i;
    Rect::new(list[at], list[at + 1], list[at + 2], list[at + 3])
}

// Writes the four numbers of a rectangle. A place holds four numbers.
pub fn write_rect(list: &mut [u32], place: usize, r: Rect)
    requires { 4 * (place + 1) ≤ length list.old }
    ensures { list.new ≡ sets list.old (4 * place) (numbers (r ∷ [])) }
{
    let at = 4 * place;
    list[at] = r.pos.x;
    list[at + 1] = r.pos.y;
    list[at + 2] = r.dims.w;
    list[at + 3] = r.dims.h;
}
