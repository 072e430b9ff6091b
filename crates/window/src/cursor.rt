// The cursor of a window: its unread move.
ghost use Rattle.std.specs.Prelude.{◌≡◌, ◌≤◌};
ghost use Rattle.window.specs.Window.{cursor_at_origin, cursor_to, move_of, cursor_read};
ghost use Rattle.window.specs.Represents.{RepCursor};

use crate::{CursorPos, Event};

impl CursorPos {
    pub fn new() -> CursorPos
        ensures { result ≡ cursor_at_origin }
    {
        CursorPos {
            old_x: 0,
            old_y: 0,
            new_x: 0,
            new_y: 0,
            is_dirty: false,
        }
    }

    #[tactic(auto, unfolding(crate::specs::Window::cursor_to))]
    pub fn update(&mut self, x: u32, y: u32)
        requires { RepCursor self.old × (x ≤ 32767) × (y ≤ 32767) }
        ensures { (self.new ≡ cursor_to self.old x y) × RepCursor self.new }
    {
        self.new_x = x as u16;
        self.new_y = y as u16;
        self.is_dirty = true;
    }

    // The unread move, which is read by this. The caller has seen that the cursor is dirty.
    pub fn take(&mut self) -> Event
        requires { RepCursor self.old }
        ensures { (result ≡ move_of self.old) × (self.new ≡ cursor_read self.old) × RepCursor self.new }
    {
        let x = self.new_x;
        let y = self.new_y;
        let dx = x as i16 - self.old_x as i16;
        let dy = y as i16 - self.old_y as i16;
        self.old_x = x;
        self.old_y = y;
        self.is_dirty = false;
        Event::MouseMove {
            x: u32::from(x),
            y: u32::from(y),
            dx,
            dy,
        }
    }
}
