// One row of pixels in a lent slice: filled, set, copied, and moved in place. Called by our own crates, which know what
// they lend.
#![tactic(auto)]

pub mod row;
pub mod shift;
