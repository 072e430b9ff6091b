// What a redraw draws: an area of the screen takes an area of a window, its pixels as they are or dimmed. Called by our
// own crates, which know what they lend.
#![tactic(auto)]

pub mod area;
pub mod row;
