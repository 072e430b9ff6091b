// Which parts of a window are seen: document 01, "Visible list", counted, listed and drawn; and the smallest rectangle
// that holds them where the window is dirty.
#![tactic(auto)]

pub mod dirty;
pub mod draw;
pub mod extents;
pub mod list;
pub mod reach;
pub mod rects;
pub mod region;
pub mod table;
pub mod walk;
