// Which windows have something to pop. Our own addition "What waits".
ghost use Rattle.std.specs.Prelude.{◌≡◌, ◌&&◌, ◌||◌, ltb};
ghost use Rattle.rules.specs.Waiting.{waiting};
ghost use Rattle.windows.specs.View.{group, Given};

use crate::Session;
use window::Window;

// Would a pop find something: in a window that is in use, an event in the queue or an unread move?
fn has_event(win: &Window) -> bool
    ensures { result ≡ win.now.used && (ltb 0 win.now.queue.len || win.now.cursor.is_dirty) }
{
    win.used && (0 < win.queue.len || win.cursor.is_dirty)
}

impl Session {
    // From window 15 down, and each further one doubles what there is, so that window 0 has the lowest bit.
    pub fn waiting(&self) -> u32
        requires { Given self.now }
        ensures { result ≡ waiting (group self.now) }
    {
        let mut n: u32 = 0;
        for i in 0..16 {
            n = 2 * n + u32::from(has_event(&self.windows[15 - i]));
        }
        n
    }
}
