// A closer look at a window: document 02, N9. A look is given in f64; the code turns it into whole quarters once, and goes along the rows in whole
// numbers.
//
//     target pixel i     0     1     2     3     4     5  …     corner 1.75, factor 2
//     place in quarters  7     9    11    13    15    17  …     from 4 × 1.75 on, 4 / 2 apart
//     window column      1     2     2     3     3     4  …     a quarter of it, rounded down
#![tactic(auto)]

ghost use Rattle.std.specs.Prelude.{◌≡◌, ◌+◌, ◌*◌, ◌≤◌, length};
ghost use Rattle.geom.specs.Refusals.{answer_of};
ghost use Rattle.look.specs.inner.Steps.{Looks};

use geom::inner::lent::pixels_fit;
use geom::refusal::Refusal;
use rows::look_rows;
use whole::whole_of;

mod fit;
mod quarters;
mod rows;
mod whole;

// "a factor 0.25, 0.5, 1, 2 or 4 in f64, or fit"
#[derive(Clone, Copy)]
pub enum Zoom {
    Factor(f64),
    Fit,
}

// "A look has a corner x, y in f64 and a zoom"
#[derive(Clone, Copy)]
pub struct Look {
    pub x: f64,
    pub y: f64,
    pub zoom: Zoom,
}

// The window's width and height, and the target's.
#[derive(Clone, Copy)]
pub struct Sizes {
    pub w: u16,
    pub h: u16,
    pub tw: u32,
    pub th: u32,
}

// A look in whole quarters: its corner, and how far apart in the window two neighbours of the target are, which is 1 / factor.
#[derive(Clone, Copy)]
pub struct Steps {
    pub x: u64,
    pub y: u64,
    pub step: u64,
}

// Questions 22 and 23, and what the target shows of a window of w by h whose pixels begin at `base` of the store.
pub fn look_window(
    look: Look,
    w: u16,
    h: u16,
    store: &[u32],
    base: usize,
    target: &mut [u32],
    tw: u32,
    th: u32,
) -> Result<(), Refusal>
    requires { (w ≤ 32767) × (h ≤ 32767) × (base + w * h ≤ length store.now) }
    ensures { Looks look (record { w = w; h = h; tw = tw; th = th }) base store.now target.old (answer_of result) target.new }
{
    let sizes = Sizes { w, h, tw, th };
    let Some(t) = whole_of(look, sizes) else {
        return Err(Refusal::Look);
    };
    if !pixels_fit(tw, th, target.len()) {
        return Err(Refusal::TargetSize);
    }
    look_rows(target, tw as u16, th as usize, store, base, w, h, t);
    Ok(())
}
