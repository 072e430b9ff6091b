// The calls as functions of one window and of what the windows share, and what they share. Most functions have a `requires`: what they need of
// their arguments is for the caller to know.
pub mod dimming;
pub mod drag;
pub mod events;
pub mod find;
pub mod frames;
pub mod one;
pub mod portion;
pub mod redraw;
pub mod store;
pub mod update;
