// The calls that touch one window, or only what the windows share: the function of one window, or of what they share, on its parts of the session.
ghost use Rattle.rules.specs.Calls.{Call};
ghost use Rattle.geom.specs.Refusals.{answer_of};
ghost use Rattle.windows.specs.View.{done, Given, Meets, MeetsMark};

use crate::Session;
use crate::inner::one::slot;
use crate::inner::{dimming, one, portion};
use geom::refusal::Refusal;
use geom::{Pos, Rect};
use window::ids::WinId;

impl Session {
    pub fn show(&mut self, id: WinId) -> Result<(), Refusal>
        requires { Given self.old }
        ensures { Meets (Call.Show id.0) self.old (done self.new (answer_of result)) }
    {
        let at = slot(id);
        one::show(&self.windows[at], &mut self.shared, id)
    }

    // A shown window goes to the top of its layer; a press stays with its window.
    pub fn raise(&mut self, id: WinId) -> Result<(), Refusal>
        requires { Given self.old }
        ensures { Meets (Call.Raise id.0) self.old (done self.new (answer_of result)) }
    {
        let at = slot(id);
        one::raise(&mut self.windows[at], &mut self.shared, id)
    }

    pub fn hide(&mut self, id: WinId) -> Result<(), Refusal>
        requires { Given self.old }
        ensures { Meets (Call.Hide id.0) self.old (done self.new (answer_of result)) }
    {
        let at = slot(id);
        one::hide(&self.windows[at], &mut self.shared, id)
    }

    pub fn drop(&mut self, id: WinId) -> Result<(), Refusal>
        requires { Given self.old }
        ensures { Meets (Call.Drop id.0) self.old (done self.new (answer_of result)) }
    {
        let at = slot(id);
        one::drop(&mut self.windows[at], &mut self.shared, id)
    }

    pub fn mark(&mut self, id: WinId) -> Result<(), Refusal>
        requires { Given self.old }
        ensures { MeetsMark id.0 self.old (done self.new (answer_of result)) }
    {
        let at = slot(id);
        one::mark(&mut self.windows[at], &mut self.shared, id)
    }

    pub fn move_window(&mut self, id: WinId, pos: Pos) -> Result<(), Refusal>
        requires { Given self.old }
        ensures { Meets (Call.Move id.0 pos.x pos.y) self.old (done self.new (answer_of result)) }
    {
        let at = slot(id);
        one::move_window(&mut self.windows[at], &mut self.shared, id, pos)
    }

    pub fn set_layer(&mut self, id: WinId, layer: u32) -> Result<(), Refusal>
        requires { Given self.old }
        ensures { Meets (Call.SetLayer id.0 layer) self.old (done self.new (answer_of result)) }
    {
        let at = slot(id);
        one::set_layer(&self.windows[at], &mut self.shared, id, layer)
    }

    pub fn add_display(&mut self, region: Rect) -> Result<(), Refusal>
        requires { Given self.old }
        ensures { Meets (Call.AddDisplay region) self.old (done self.new (answer_of result)) }
    {
        self.displays.add(region)
    }

    // Asks no question, and so cannot be refused.
    pub fn begin(&mut self, forced: bool)
        requires { Given self.old }
        ensures { Meets (Call.Begin forced) self.old (done self.new 0) }
    {
        portion::begin(&mut self.shared, forced);
    }

    // Asks no question, and so cannot be refused.
    pub fn dim(&mut self, on: bool)
        requires { Given self.old }
        ensures { Meets (Call.Dim on) self.old (done self.new 0) }
    {
        dimming::dim(&mut self.shared, on);
    }
}
