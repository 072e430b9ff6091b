// A look in whole quarters.
ghost use Rattle.std.specs.Prelude.{◌≡◌};
ghost use Rattle.look.specs.inner.Steps.{joined_of, whole_of};

use crate::fit::fitted;
use crate::quarters::{quarters_of, step_of};
use crate::{Look, Sizes, Steps, Zoom};

// The factor, x and y, where all are whole quarters and the factor is one of the five.
fn joined(factor: Option<u64>, x: Option<u64>, y: Option<u64>) -> Option<Steps>
    ensures { result ≡ joined_of factor x y }
{
    let f = factor?;
    let x = x?;
    let y = y?;
    let step = step_of(f);
    if step == 0 {
        return None;
    }
    Some(Steps { x, y, step })
}

// What a look comes to in whole quarters; none where it is refused by question 22. Fit does not look at the corner.
pub fn whole_of(look: Look, s: Sizes) -> Option<Steps>
    ensures { result ≡ whole_of look s }
{
    let zoom = look.zoom;
    let Zoom::Factor(factor) = zoom else {
        return Some(fitted(s));
    };
    joined(
        quarters_of(factor),
        quarters_of(look.x),
        quarters_of(look.y),
    )
}
