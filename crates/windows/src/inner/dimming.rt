// The call dim: document 02, N10.
ghost use Rattle.rules.specs.Calls.{Call};
ghost use Rattle.windows.specs.inner.One.{MeetsShared};

use crate::Shared;

// Switches dimming on or off and owes a full redraw; to set what is set changes nothing.
pub fn dim(shared: &mut Shared, on: bool)
    ensures { MeetsShared (Call.Dim on) shared.old shared.new }
{
    if on == shared.dimmed {
        return;
    }
    shared.dimmed = on;
    shared.owe();
}
