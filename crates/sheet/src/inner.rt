// What the reader and our own crates need: a sheet's bits read at a cursor, its rules, its rectangles, and the writer.
//
// A cursor is a number of bits from the front. Past the last byte every bit is 0, so that reading never fails: whether the
// bytes end where the sheet does is asked once, behind it.
pub mod bits;
pub mod read;
pub mod valid;
pub mod write;
