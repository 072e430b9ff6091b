// What our own crates call. Most functions have a `requires`: what they need of their arguments is for the caller to
// know.

pub mod area;
pub mod place;
pub mod region;
pub mod resize;
