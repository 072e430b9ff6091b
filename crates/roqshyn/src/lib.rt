// The window group for programs in C and Rust: every call of document 01 under the prefix `roq_`.
//
// The session lies behind a pointer. A slice is a pointer and a length in elements. No enum crosses: an event is a
// struct of numbers, and what a call hands back beside its answer is a number or a struct of numbers. Each struct has
// the name and the fields that include/roqshyn.h gives it, also where two have the same fields: that is C's interface.
#![tactic(auto)]

mod answers;
mod calls;
mod events;
mod looks;
mod pixels;
mod queries;
mod rects;
mod sheets;
mod times;
mod values;
mod version;
