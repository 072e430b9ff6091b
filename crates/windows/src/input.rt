// The calls that tell a window of an event, and the one that takes an event from its queue.
ghost use Rattle.geom.specs.Refusals.{answer_of};
ghost use Rattle.rules.specs.Calls.{Call};
ghost use Rattle.windows.specs.View.{done, popped, taker_in, Given, Meets, MeetsEvent, MeetsTaker};

use crate::inner::events;
use crate::inner::one::slot;
use crate::{Session, Taken};
use geom::refusal::Refusal;
use window::Event;
use window::ids::WinId;

impl Session {
    // An event goes to the window that takes it, or to nobody, as a Resize does.
    pub fn route_to(&mut self, e: Event) -> Result<Option<Taken>, Refusal>
        requires { Given self.old }
        ensures { MeetsTaker e self.old (done self.new (answer_of result)) (taker_in result) }
    {
        let Some(aim) = events::aim_event(self, e)? else {
            return Ok(None);
        };
        let at = aim.id.0 as usize;
        events::tell(&mut self.windows[at], aim.event)?;
        self.shared.grab = aim.grab;
        let point = events::point_of(aim.event);
        Ok(Some(Taken {
            id: aim.id,
            x: point.x,
            y: point.y,
        }))
    }

    pub fn route(&mut self, e: Event) -> Result<(), Refusal>
        requires { Given self.old }
        ensures { Meets (Call.Route e) self.old (done self.new (answer_of result)) }
    {
        self.route_to(e)?;
        Ok(())
    }

    pub fn pop(&mut self, id: WinId) -> Result<Event, Refusal>
        requires { Given self.old }
        ensures { MeetsEvent (Call.Pop id.0) self.old (popped self.new result) }
    {
        let at = slot(id);
        events::pop(&mut self.windows[at], id)
    }
}
