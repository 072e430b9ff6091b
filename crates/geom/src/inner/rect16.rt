// A rectangle in 16 bits each way, as windows and displays hold it.
ghost use Rattle.std.specs.Prelude.{◌≡◌, ◌≤◌};
ghost use Rattle.geom.specs.Geom.{rect};
ghost use Rattle.geom.specs.Rect16.{rect_of};

use crate::{Dims, Pos, Rect};

#[repr(C)]
#[derive(Clone, Copy)]
pub struct Rect16 {
    pub x: u16,
    pub y: u16,
    pub w: u16,
    pub h: u16,
}

impl Rect16 {
    // No `TryFrom`: it would have an error that no caller can meet, since each proves that its numbers are small.
    pub fn new(x: u32, y: u32, w: u32, h: u32) -> Rect16
        requires { (x ≤ 65535) × (y ≤ 65535) × (w ≤ 65535) × (h ≤ 65535) }
        ensures { rect_of result ≡ rect x y w h }
    {
        Rect16 {
            x: x as u16,
            y: y as u16,
            w: w as u16,
            h: h as u16,
        }
    }

    // No `From`: `area.rect().pos` says to what it is turned, and `Rect::from(area).pos` is no plainer.
    pub fn rect(self) -> Rect
        ensures { result ≡ rect_of self }
    {
        let pos = Pos::new(self.x as u32, self.y as u32);
        let dims = Dims::new(self.w as u32, self.h as u32);
        Rect::new_pd(pos, dims)
    }
}
