// Which library this is: the version, and how many bytes a session takes.
ghost use Rattle.std.specs.Prelude.{◌≡◌};
ghost use Rattle.roqshyn.specs.Version.{version, session_size};

use windows::Session;

const MAJOR: u32 = 1;

const MINOR: u32 = 1;

const PATCH: u32 = 0;

// include/layout.c compares it with what the calls read and write.
const SESSION_SIZE: usize = size_of::<Session>();

#[unsafe(no_mangle)]
pub extern "C" fn roq_version() -> u32
    ensures { result ≡ version }
{
    MAJOR * 1000000 + MINOR * 1000 + PATCH
}

#[unsafe(no_mangle)]
pub extern "C" fn roq_session_size() -> usize
    ensures { result ≡ session_size }
{
    SESSION_SIZE
}
