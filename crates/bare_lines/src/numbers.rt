// The numbers of a line as the library takes them.
ghost use Rattle.std.specs.Prelude.{◌≡◌, ◌+◌, ◌*◌, ◌≤◌};
ghost use Rattle.bare_lines.specs.Numbers.{num, id_of, rect_at, float_of};

use geom::{Dims, Pos, Rect};
use window::ids::WinId;

// Room for the numbers of the longest line. Those behind a line's last are of lines before it.
pub type Numbers = [u32; 384006];

// The window that a line names. Any number is handed on, and one that no window has is answered by 3.
pub fn id(ns: &Numbers) -> WinId
    ensures { result.0 ≡ id_of ns.now }
{
    WinId(ns[0])
}

pub fn pos(ns: &Numbers, at: usize) -> Pos
    requires { at ≤ 4 }
    ensures { (result.x ≡ num ns.now at) × (result.y ≡ num ns.now (at + 1)) }
{
    Pos::new(ns[at], ns[at + 1])
}

pub fn dims(ns: &Numbers, at: usize) -> Dims
    requires { at ≤ 4 }
    ensures { (result.w ≡ num ns.now at) × (result.h ≡ num ns.now (at + 1)) }
{
    Dims::new(ns[at], ns[at + 1])
}

pub fn rect(ns: &Numbers, at: usize) -> Rect
    requires { at ≤ 4 }
    ensures { result ≡ rect_at ns.now at }
{
    Rect::new(ns[at], ns[at + 1], ns[at + 2], ns[at + 3])
}

// How many pixels a picture of two numbers' size has.
pub fn size(w: u32, h: u32) -> u64
    ensures { result ≡ w * h }
{
    u64::from(w) * u64::from(h)
}

// The f64 of its upper and its lower 32 bits. The language reads no NaN from bits, so one is made: by the model of f64 there is one.
pub fn float(high: u32, low: u32) -> f64
    ensures { result ≡ float_of high low }
{
    let bits = high as u64 * 4294967296 + low as u64;
    if bits % 9223372036854775808 > 9218868437227405312 {
        return 0.0 / 0.0;
    }
    f64::from_bits(bits)
}
