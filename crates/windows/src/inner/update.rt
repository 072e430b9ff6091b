// `update_dims`: document 02, N2.
ghost use Rattle.std.specs.Prelude.{◌≡◌};
ghost use Rattle.geom.specs.Refusals.{answer_of};
ghost use Rattle.geom.specs.Rect16.{Small, rect_of};
ghost use Rattle.window.specs.Represents.{win_of, RepWindow};
ghost use Rattle.rules.specs.Calls.{Call};
ghost use Rattle.windows.specs.View.{done, Given, MeetsStore};
ghost use Rattle.windows.specs.inner.Pixels.{Becomes};
ghost use Rattle.windows.specs.inner.Maximise.{goes};

use crate::Session;
use crate::inner::frames::frames;
use crate::inner::store::resized_to;
use display::update::{Move, all_fit, resize_all};
use geom::inner::lent::store_fits;
use geom::refusal::Refusal;
use window::Window;

// A window goes where it is moved, by the rule of resize if it takes a display there.
fn place(win: &mut Window, m: Move)
    requires { RepWindow win.old × Small (rect_of m.to) }
    ensures { Becomes win.old (goes m.resizes (rect_of m.to) (win_of win.old)) win.new }
{
    if m.resizes {
        resized_to(win, m.to);
    } else {
        win.at = m.to;
    }
}

impl Session {
    // Windows keep to the displays: a maximised one takes the display of its position or the closest, another that is on none comes to the closest.
    // Question 6 is asked of all windows before the pixels of any are resized.
    pub fn update_dims(&mut self, store: &mut [u32]) -> Result<(), Refusal>
        requires { Given self.old }
        ensures { MeetsStore (Call.UpdateDims store.old) self.old (done self.new (answer_of result)) store.new }
    {
        if !store_fits(store.len(), self.shared.c) {
            return Err(Refusal::StoreLength);
        }
        let frames = frames(self);
        let maximised = &self.shared.maximised;
        let moves = self.displays.moves(&frames.areas, &frames.used, maximised);
        if !all_fit(&moves, self.shared.c) {
            return Err(Refusal::WindowSize);
        }
        resize_all(store, self.shared.c as usize, &frames.areas, &moves);
        for i in 0..16 {
            place(&mut self.windows[i], moves[i]);
        }
        self.shared.owe();
        Ok(())
    }
}
