// The region sheet of a window. Document 02, N6.
ghost use Rattle.geom.specs.Refusals.{listing_of};
ghost use Rattle.windows.specs.View.{group, Given, Prints};

use crate::Session;
use crate::inner::find::find;
use geom::refusal::Refusal;
use window::ids::WinId;

impl Session {
    // The sheet of a window's visible part, from the front of the buffer; its rest is untouched. A hidden window has
    // the sheet without bands, "one zero byte".
    pub fn sheet(&self, id: WinId, bytes: &mut [u8]) -> Result<usize, Refusal>
        requires { Given self.now }
        ensures { Prints (group self.now) id.0 bytes.old (listing_of result) bytes.new }
    {
        let found = find(self, id)?;
        let Some(above) = found.above else {
            return sheet::inner::write::write(&[], 0, bytes);
        };
        bands::write(found.at, above.as_slice(), bytes)
    }
}
