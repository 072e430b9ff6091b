// The memory of the program: its arrays lie there.
use std::io::{Stderr, Write};

// What is said where nothing is played. Whether it could be written is not looked at: there is nobody to tell.
pub fn refuse(mut stderr: Stderr) {
    let _ = stderr.write_all(
        b"replay: nothing was played, since it needs 39 MB of memory and was given less\n",
    );
}
