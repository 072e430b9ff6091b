// The calls that write the lent store: fill, blit, resize and maximise.
ghost use Rattle.geom.specs.Refusals.{answer_of};
ghost use Rattle.rules.specs.Calls.{Call};
ghost use Rattle.rules.specs.Panels.{Write};
ghost use Rattle.windows.specs.View.{done, written, Given, MeetsStore, MeetsAltered};

use crate::Session;
use crate::inner::one::slot;
use crate::inner::store::{base_in, blit_rect, fill_rect, resize_pixels};
use display::update::fits;
use geom::inner::rect16::Rect16;
use geom::inner::small::{is_small, is_small_size};
use geom::refusal::Refusal;
use geom::{Dims, Rect};
use window::ids::WinId;

impl Session {
    // How many pixels of the store differ.
    pub fn fill(
        &mut self,
        id: WinId,
        area: Rect,
        colour: u32,
        store: &mut [u32],
    ) -> Result<usize, Refusal>
        requires { Given self.old }
        ensures { MeetsAltered id.0 (Write.fill area colour) store.old self.old (written self.new result) store.new }
    {
        let at = slot(id);
        let base = base_in(store.len(), self.shared.c, id, self.windows[at].used)?;
        if !is_small(area) {
            return Err(Refusal::TooLarge);
        }
        Ok(fill_rect(&mut self.windows[at], base, area, colour, store))
    }

    // How many pixels of the store differ.
    pub fn blit(
        &mut self,
        id: WinId,
        area: Rect,
        stride: usize,
        data: &[u32],
        store: &mut [u32],
    ) -> Result<usize, Refusal>
        requires { Given self.old }
        ensures { MeetsAltered id.0 (Write.blit area «data».now stride) store.old self.old (written self.new result) store.new }
    {
        let at = slot(id);
        let base = base_in(store.len(), self.shared.c, id, self.windows[at].used)?;
        if !is_small(area) {
            return Err(Refusal::TooLarge);
        }
        if stride < 1 {
            return Err(Refusal::Stride);
        }
        Ok(blit_rect(&mut self.windows[at], base, area, stride, data, store))
    }

    pub fn resize(&mut self, id: WinId, size: Dims, store: &mut [u32]) -> Result<(), Refusal>
        requires { Given self.old }
        ensures { MeetsStore (Call.Resize id.0 size.w size.h store.old) self.old (done self.new (answer_of result)) store.new }
    {
        let at = slot(id);
        let base = base_in(store.len(), self.shared.c, id, self.windows[at].used)?;
        if !is_small_size(size) {
            return Err(Refusal::TooLarge);
        }
        if self.shared.c < size.w * size.h {
            return Err(Refusal::WindowSize);
        }
        let old = self.windows[at].at;
        let to = Rect16 {
            x: old.x,
            y: old.y,
            w: size.w as u16,
            h: size.h as u16,
        };
        resize_pixels(&mut self.windows[at], base, self.shared.c, to, store);
        self.shared.maximised[at] = false;
        self.shared.owe(); // where it is smaller now, something is uncovered
        Ok(())
    }

    // The window takes the display that its position is on, and stays maximised until it is moved or resized.
    pub fn maximise_window(&mut self, id: WinId, store: &mut [u32]) -> Result<(), Refusal>
        requires { Given self.old }
        ensures { MeetsStore (Call.Maximise id.0 store.old) self.old (done self.new (answer_of result)) store.new }
    {
        let at = slot(id);
        let base = base_in(store.len(), self.shared.c, id, self.windows[at].used)?;
        let display = self.displays.display_of(self.windows[at].at);
        if !fits(display, self.shared.c) {
            return Err(Refusal::WindowSize);
        }
        resize_pixels(&mut self.windows[at], base, self.shared.c, display, store);
        self.shared.maximised[at] = true;
        self.shared.owe();
        Ok(())
    }
}
