// Questions on the length of what a call is lent.
ghost use Rattle.std.specs.Prelude.{◌≡◌, ◌&&◌, ◌*◌, leb, eqb};
ghost use Rattle.geom.specs.Questions.{small};

use crate::inner::small::MOST;

// Question 1: has the store exactly 16 × C pixels?
pub fn store_fits(len: usize, c: u32) -> bool
    ensures { result ≡ eqb len (16 * c) }
{
    len == 16 * c as usize
}

// Questions 8 and 23: are width and height 1 to 32,767, and has the screen or the target as many pixels as their product?
pub fn pixels_fit(w: u32, h: u32, len: usize) -> bool
    ensures { result ≡ leb 1 w && small w && (leb 1 h && small h) && eqb len (w * h) }
{
    1 <= w && (w <= MOST && (1 <= h && (h <= MOST && len == w as usize * h as usize)))
}
