// The reader of region sheets, which needs no session. Document 02, N6.
ghost use Rattle.sheet.specs.Reader.{Reads};
ghost use Rattle.roqshyn.specs.Answers.{as_listing};

use crate::answers::RoqListing;

#[unsafe(no_mangle)]
pub extern "C" fn roq_read_sheet(bytes: &[u8], list: &mut [u32]) -> RoqListing
    ensures { Reads bytes.now list.old (as_listing result) list.new }
{
    sheet::read_sheet(bytes, list).into()
}
