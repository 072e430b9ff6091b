// How much of a window is in view. Document 02, N11.
ghost use Rattle.windows.specs.View.{group, in_view, Given, Shares};

use crate::inner::find::find;
use crate::{InView, Session};
use geom::inner::is_empty;
use geom::refusal::Refusal;
use window::ids::WinId;

impl Session {
    // The share of a window that no higher window covers, off the screen too. Its pixels are at most C, so that 100
    // times as many are a number of 32 bits.
    pub fn share(&self, id: WinId) -> Result<InView, Refusal>
        requires { Given self.now }
        ensures { Shares (group self.now) id.0 (in_view result) }
    {
        let found = find(self, id)?;
        let Some(above) = found.above else {
            return Err(Refusal::NotInView);
        };
        let at = found.at;
        if is_empty(at) {
            return Err(Refusal::NotInView);
        }
        let seen = 100 * visible::list::pixels(at, above.as_slice()) as u32;
        let size = at.dims.w * at.dims.h;
        Ok(InView {
            percent: seen / size,
            remainder: seen % size,
        })
    }
}
