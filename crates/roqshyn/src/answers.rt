// The answer of a call, as C gets it, and an answer with a count beside it.
ghost use Rattle.std.specs.Prelude.{◌≡◌};
ghost use Rattle.geom.specs.Refusals.{answer_of};

use geom::refusal::Refusal;

// 0, or the number of the question that refused the call.
pub fn code<T: Drop>(answered: Result<T, Refusal>) -> u32
    ensures { result ≡ answer_of answered }
{
    match answered {
        Ok(_) => 0,
        Err(refusal) => refusal.number(),
    }
}

// The answer, and how many rectangles were listed or bytes written: none where the call was refused.
#[repr(C)]
#[derive(Clone, Copy)]
pub struct RoqListing {
    pub answer: u32,
    pub count: usize,
}

impl From<Result<usize, Refusal>> for RoqListing {
    ghost use Rattle.geom.specs.Refusals.{listing_of};
    ghost use Rattle.roqshyn.specs.Answers.{as_listing};

    ghost from_gives = { λ listed r. as_listing r ≡ listing_of listed };

    fn from(listed: Result<usize, Refusal>) -> RoqListing {
        RoqListing {
            answer: code(listed),
            count: listed.unwrap_or(0),
        }
    }
}

// The answer of a call that writes pixels, and how many of them have another value than before: none where it was
// refused.
#[repr(C)]
#[derive(Clone, Copy)]
pub struct RoqAltered {
    pub answer: u32,
    pub altered: usize,
}

impl From<Result<usize, Refusal>> for RoqAltered {
    ghost use Rattle.winbuf.specs.Bare.{altered_of};
    ghost use Rattle.roqshyn.specs.Answers.{as_altered};

    ghost from_gives = { λ written r. as_altered r ≡ altered_of written };

    fn from(written: Result<usize, Refusal>) -> RoqAltered {
        RoqAltered {
            answer: code(written),
            altered: written.unwrap_or(0),
        }
    }
}
