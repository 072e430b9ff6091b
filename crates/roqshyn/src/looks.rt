// A look as numbers.
ghost use Rattle.std.specs.Prelude.{◌≡◌};

use look::{Look, Zoom};

// A corner, a factor, and whether the look fits the window into the target, in which case corner and factor are not
// read.
#[repr(C)]
#[derive(Clone, Copy)]
pub struct RoqLook {
    pub x: f64,
    pub y: f64,
    pub factor: f64,
    pub fit: bool,
}

impl From<RoqLook> for Look {
    ghost use Rattle.roqshyn.specs.Looks.{look_of};

    ghost from_gives = { λ numbers look. look ≡ look_of numbers };

    fn from(numbers: RoqLook) -> Look {
        let RoqLook { x, y, factor, fit } = numbers;
        let zoom = if fit { Zoom::Fit } else { Zoom::Factor(factor) };
        Look { x, y, zoom }
    }
}
