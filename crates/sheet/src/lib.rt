// Region sheets: document 02, N6. A region as packed bits. `read_sheet` takes any bytes; the writer, `inner::write`, stands
// behind the session's call `sheet`.
#![tactic(auto)]

ghost use Rattle.geom.specs.Refusals.{listing_of};
ghost use Rattle.sheet.specs.Reader.{Reads};

use geom::refusal::Refusal;
use inner::read::write_rects;
use inner::valid::check;

pub mod inner;

// Document 02, N6: reads a sheet into a lent list of rectangles, four numbers for each: x, y, w, h. "19 … asked after 18",
// and a refusal leaves the list as it is.
pub fn read_sheet(bytes: &[u8], list: &mut [u32]) -> Result<usize, Refusal>
    ensures { Reads bytes.now list.old (listing_of result) list.new }
{
    let Some(count) = check(bytes) else {
        return Err(Refusal::NoSheet);
    };
    if list.len() / 4 < count {
        return Err(Refusal::SheetLength);
    }
    write_rects(bytes, list);
    Ok(count)
}
