// The calls on event times. Document 02, N13.
ghost use Rattle.std.specs.Prelude.{◌≡◌};
ghost use Rattle.busiest.specs.Busiest.{busiest};
ghost use Rattle.roqshyn.specs.Answers.{as_second};

use crate::answers::code;
use busiest::Second;
use geom::refusal::Refusal;

// The greatest number of events in a second, and the place of the first of them: both are 0 where the call was refused.
#[repr(C)]
#[derive(Clone, Copy)]
pub struct RoqSecond {
    pub answer: u32,
    pub count: usize,
    pub place: usize,
}

impl From<Result<Second, Refusal>> for RoqSecond {
    ghost use Rattle.busiest.specs.Busiest.{second_of};
    ghost use Rattle.roqshyn.specs.Answers.{as_second};

    ghost from_gives = { λ found r. as_second r ≡ second_of found };

    fn from(found: Result<Second, Refusal>) -> RoqSecond {
        let answer = code(found);
        let Second { count, place } = found.unwrap_or(Second { count: 0, place: 0 });
        RoqSecond {
            answer,
            count,
            place,
        }
    }
}

#[unsafe(no_mangle)]
pub extern "C" fn roq_busiest(times: &[u32]) -> RoqSecond
    ensures { as_second result ≡ busiest times.now }
{
    busiest::busiest(times).into()
}
