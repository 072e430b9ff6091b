// A closer look at a window. Document 02, N9.
ghost use Rattle.geom.specs.Refusals.{answer_of};
ghost use Rattle.windows.specs.View.{group, Given, Looks};

use crate::Session;
use crate::inner::one::slot;
use crate::inner::store::base_in;
use geom::refusal::Refusal;
use look::{Look, look_window};
use window::ids::WinId;

impl Session {
    // What a target of tw by th pixels shows of a window, shown or hidden: its pixel (i,j) is the window's at
    // (x + i / factor, y + j / factor), or 0.
    pub fn look(
        &self,
        id: WinId,
        look: Look,
        tw: u32,
        th: u32,
        store: &[u32],
        target: &mut [u32],
    ) -> Result<(), Refusal>
        requires { Given self.now }
        ensures { Looks (group self.now) id.0 look store.now target.old tw th (answer_of result) target.new }
    {
        let at = slot(id);
        let win = &self.windows[at];
        let base = base_in(store.len(), self.shared.c, id, win.used)?;
        look_window(look, win.at.w, win.at.h, store, base, target, tw, th)
    }
}
