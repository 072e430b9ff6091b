// What the calls that write the lent store do to one window, translated from window.rs. `base` is the place in the store at which its pixels
// begin: its number times C. A fill and a blit give how many pixels of the store differ afterwards (document 02, N3).
ghost use Rattle.std.specs.Prelude.{◌≡◌, length, false};
ghost use Rattle.geom.specs.Geom.{rect, is_empty};
ghost use Rattle.geom.specs.Rect16.{Small, rect_of};
ghost use Rattle.scanline.specs.Pixels.{resized_at};
ghost use Rattle.scanline.specs.inner.Rows.{Counted};
ghost use Rattle.window.specs.Represents.{RepWindow, win_of};
ghost use Rattle.rules.specs.Store.{dirtied, filled_at, blit_at};
ghost use Rattle.rules.specs.Displays.{resized_to};
ghost use Rattle.windows.specs.View.{filled_win, blit_win, holding};
ghost use Rattle.windows.specs.inner.Lent.{BeginsAt};
ghost use Rattle.windows.specs.inner.Pixels.{Becomes, RowsIn, PartIn, Paints, Resizable};

use geom::Rect;
use geom::inner::is_empty;
use geom::inner::lent::store_fits;
use geom::inner::rect16::Rect16;
use geom::refusal::Refusal;
use winbuf::inner::area::{blit_area, fill_area};
use winbuf::inner::resize::resize_store;
use window::damage::Damage;
use window::ids::{WinId, in_use};
use window::{Event, Window};

// Questions 1 and 3, and where in the store the pixels of the window begin.
pub fn base_in(len: usize, c: u32, id: WinId, used: bool) -> Result<usize, Refusal>
    ensures { BeginsAt id.0 used c len result }
{
    if !store_fits(len, c) {
        return Err(Refusal::StoreLength);
    }
    if !in_use(id, used) {
        return Err(Refusal::UnknownId);
    }
    Ok(id.0 as usize * c as usize)
}

// The part of an area that lies in a window, from the window's corner.
fn part_in(at: Rect16, area: Rect) -> Option<Rect>
    requires { Small (rect_of at) × Small area }
    ensures { PartIn (rect 0 0 at.w at.h) area result }
{
    let all = Rect::new(0, 0, at.w as u32, at.h as u32);
    match area.intersect(all) {
        Ok(part) => part,
        // never: question 14 holds of both
        Err(_) => None,
    }
}

// The area is added to the damage of the window.
pub fn damage(win: &mut Window, area: Rect)
    requires { RepWindow win.old × Small area }
    ensures { Becomes win.old (dirtied area (win_of win.old)) win.new × (win.new ≡ holding (dirtied area (win_of win.old)) win.old) }
{
    win.damage.add(win.at.w as u32, win.at.h as u32, area);
}

// The part of the area that lies in the window takes the colour.
pub fn fill_rect(win: &mut Window, base: usize, area: Rect, colour: u32, store: &mut [u32]) -> usize
    requires { RowsIn (length store.old) base win.old.at × RepWindow win.old × Small area }
    ensures { Paints win.old (filled_win area (win_of win.old)) (filled_at base (win_of win.old) area colour store.old) store.old win.new store.new result }
{
    let Some(part) = part_in(win.at, area) else {
        return 0;
    };
    let altered = fill_area(
        store,
        base,
        win.at.w as usize,
        part.pos.x as usize,
        part.pos.y as usize,
        part.dims.w as u16,
        part.dims.h as usize,
        colour,
    );
    damage(win, part);
    altered
}

// Rows of the area take successive chunks of `stride` data, where they lie in the window. How many pixels differ.
fn blit_part(
    win: &Window,
    base: usize,
    area: Rect,
    stride: usize,
    data: &[u32],
    store: &mut [u32],
) -> usize
    requires { RowsIn (length store.old) base win.now.at × Small area × (is_empty area ≡ false) }
    ensures { Counted (blit_at base (win_of win.now) area «data».now stride store.old) store.old store.new result }
{
    let Some(part) = part_in(win.at, area) else {
        return 0;
    };
    blit_area(
        store,
        base,
        win.at.w as usize,
        part.pos.x as usize,
        part.pos.y as usize,
        data,
        stride,
        part.dims.w as u16,
        part.dims.h as usize,
    )
}

// The same, with the area added to the damage uncut. An empty area is left alone.
pub fn blit_rect(
    win: &mut Window,
    base: usize,
    area: Rect,
    stride: usize,
    data: &[u32],
    store: &mut [u32],
) -> usize
    requires { RowsIn (length store.old) base win.old.at × RepWindow win.old × Small area }
    ensures { Paints win.old (blit_win area (win_of win.old)) (blit_at base (win_of win.old) area «data».now stride store.old) store.old win.new store.new result }
{
    if is_empty(area) {
        return 0;
    }
    let altered = blit_part(win, base, area, stride, data, store);
    damage(win, area);
    altered
}

// The window at a new place and of a new size, with all of it damaged and Resize queued.
pub fn resized_to(win: &mut Window, at: Rect16)
    requires { RepWindow win.old × Small (rect_of at) }
    ensures { Becomes win.old (resized_to (rect_of at) (win_of win.old)) win.new }
{
    win.at = at;
    win.damage = Damage::whole(at.w as u32, at.h as u32);
    win.queue.push(Event::Resize);
}

// The same, with its pixels, of which the store has c.
pub fn resize_pixels(win: &mut Window, base: usize, c: u32, at: Rect16, store: &mut [u32])
    requires { Resizable (length store.old) base c at win.old }
    ensures { Becomes win.old (resized_to (rect_of at) (win_of win.old)) win.new × (store.new ≡ resized_at base c win.old.at.w win.old.at.h at.w at.h store.old) }
{
    let old = win.at;
    resize_store(
        store,
        base,
        c as usize,
        old.w,
        old.h as usize,
        at.w,
        at.h as usize,
    );
    resized_to(win, at);
}
