// Where windows go: the display that a maximised window takes, and where `update_dims` puts each of sixteen windows.
// Translated from windows/mod.rs.
ghost use Rattle.std.specs.Prelude.{◌≡◌, ℕ, ◌<◌, length};
ghost use Rattle.geom.specs.Displays.{answered};
ghost use Rattle.geom.specs.Rect16.{Small, rect_of};
ghost use Rattle.rules.specs.Displays as rule;
ghost use Rattle.display.specs.Represents.{regions, RepDisplays, located_of};
ghost use Rattle.display.specs.inner.Update.{place, moves_of, MovesTo, all_fit, Roomy, all_resized};

use crate::{Displays, Located};
use geom::inner::rect16::Rect16;
use geom::inner::{bottom, right};
use geom::{Pos, Rect};
use winbuf::inner::resize::resize_store;

// What stays visible at least of a window that comes to the closest display.
const MIN_VISIBLE: u32 = 20;

// Where a window goes, and whether it takes a display there.
#[derive(Clone, Copy)]
pub struct Move {
    pub to: Rect16,
    pub resizes: bool,
}

fn area_of(d: Rect) -> Rect16
    requires { Small d }
    ensures { rect_of result ≡ d }
{
    Rect16::new(d.pos.x, d.pos.y, d.dims.w, d.dims.h)
}

// The number n, cut to 20 before `to` and then to `from`. A difference below 0 counts as 0.
fn warped(from: u32, to: u32, n: u32) -> u32
    ensures { result ≡ rule.warped from to n }
{
    n.min(to.saturating_sub(MIN_VISIBLE)).max(from)
}

// The place of a window that is not maximised: one on a display stays, one on none comes to the closest, with its size.
fn kept_at(found: Located, at: Rect16) -> Rect16
    requires { Small (answered (located_of found)) × Small (rect_of at) }
    ensures { (rect_of result ≡ rule.kept_at (located_of found) (rect_of at)) × Small (rect_of result) }
{
    match found {
        Located::On(_) => at,
        Located::Closest(d) => {
            let x = warped(d.pos.x, right(d), at.x as u32);
            let y = warped(d.pos.y, bottom(d), at.y as u32);
            Rect16 {
                x: x as u16,
                y: y as u16,
                w: at.w,
                h: at.h,
            }
        }
    }
}

// The display answered, on or closest.
fn answered(found: Located) -> Rect16
    requires { Small (answered (located_of found)) }
    ensures { rect_of result ≡ answered (located_of found) }
{
    match found {
        Located::On(d) | Located::Closest(d) => area_of(d),
    }
}

// Question 6 of a window that takes a display.
pub fn fits(display: Rect16, c: u32) -> bool
    ensures { result ≡ rule.fits c (rect_of display) }
{
    display.w as u32 * display.h as u32 <= c
}

impl Displays {
    // The display that a window takes which is maximised there: (0,0,0,0) where it is on none.
    pub fn display_of(&self, at: Rect16) -> Rect16
        requires { RepDisplays self.now × Small (rect_of at) }
        ensures { (rect_of result ≡ rule.on_only (rule.locate (regions self.now) (rect_of at))) × Small (rect_of result) }
    {
        let found = self.get_display_for_pos(Pos::new(at.x as u32, at.y as u32));
        match found {
            Located::On(d) => area_of(d),
            Located::Closest(_) => Rect16::new(0, 0, 0, 0),
        }
    }

    // Where `update_dims` puts a window.
    fn updated_at(&self, maximised: bool, at: Rect16) -> Rect16
        requires { RepDisplays self.now × Small (rect_of at) }
        ensures { (rect_of result ≡ rule.updated_at (regions self.now) maximised (rect_of at)) × Small (rect_of result) }
    {
        let found = self.get_display_for_pos(Pos::new(at.x as u32, at.y as u32));
        if maximised {
            return answered(found);
        }
        kept_at(found, at)
    }

    // Where it puts sixteen windows by their numbers, each by itself: those that are in use and maximised take a
    // display.
    pub fn moves(
        &self,
        areas: &[Rect16; 16],
        used: &[bool; 16],
        maximised: &[bool; 16],
    ) -> [Move; 16]
        requires { RepDisplays self.now × ((i : ℕ) → i < 16 → Small (place areas.now i)) }
        ensures { MovesTo (regions self.now) areas.now used.now maximised.now 16 (moves_of result) }
    {
        let stays = Move {
            to: Rect16::new(0, 0, 0, 0),
            resizes: false,
        };
        let mut moves = [stays; 16];
        for i in 0..16 {
            let resizes = used[i] && maximised[i];
            let to = self.updated_at(resizes, areas[i]);
            moves[i] = Move { to, resizes };
        }
        moves
    }
}

// Question 6 of all of them.
pub fn all_fit(moves: &[Move; 16], c: u32) -> bool
    ensures { result ≡ all_fit c (moves_of moves.now) }
{
    moves.iter().all(|m| !m.resizes || fits(m.to, c))
}

// The pixels of those that take a display: window i has the c from i × c on, and had the size of `old`.
pub fn resize_all(store: &mut [u32], c: usize, old: &[Rect16; 16], moves: &[Move; 16])
    requires { Roomy (length store.old) c old.now (moves_of moves.now) }
    ensures { store.new ≡ all_resized c old.now (moves_of moves.now).resizes 0 (moves_of moves.now).areas store.old }
{
    for (i, m) in moves.iter().enumerate() {
        if m.resizes {
            let was = old[i];
            let to = m.to;
            resize_store(store, i * c, c, was.w, was.h as usize, to.w, to.h as usize);
        }
    }
}
