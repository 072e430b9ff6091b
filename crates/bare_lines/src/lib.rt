// The numbers of a line of a call script, and the lines whose calls need no session: those on rectangles and on pixels alone.
#![tactic(auto)]

pub mod geometry;
pub mod numbers;
pub mod pixels;
