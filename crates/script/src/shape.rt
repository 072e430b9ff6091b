// A line that has been read.
use crate::kind::Kind;

// Its kind, how many numbers it has, and how many bytes the name of a picture has.
#[derive(Clone, Copy)]
pub struct Line {
    pub kind: Kind,
    pub count: usize,
    pub name: usize,
}
