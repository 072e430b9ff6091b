// The visible list of a window: document 01, "Visible list, relative to the window".
ghost use Rattle.geom.specs.Refusals.{listing_of};
ghost use Rattle.windows.specs.View.{group, Given, Lists};

use crate::Session;
use crate::inner::find::find;
use geom::refusal::Refusal;
use visible::list;
use window::ids::WinId;

impl Session {
    // Four numbers for each visible rectangle, from the front of the list; its rest is untouched.
    pub fn visible(&self, id: WinId, list: &mut [u32]) -> Result<usize, Refusal>
        requires { Given self.now }
        ensures { Lists (group self.now) id.0 list.old (listing_of result) list.new }
    {
        let found = find(self, id)?;
        let Some(above) = found.above else {
            return Ok(0);
        };
        let above = above.as_slice();
        if !list::has_room(found.at, above, list.len()) {
            return Err(Refusal::ListLength);
        }
        Ok(list::list(found.at, above, list))
    }
}
