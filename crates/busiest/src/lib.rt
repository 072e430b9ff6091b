// The busiest second of a run of event times. Document 02, N13.
#![tactic(auto)]

ghost use Rattle.std.specs.Prelude.{◌≡◌};
ghost use Rattle.busiest.specs.Busiest.{second_of, busiest};

use geom::refusal::Refusal;

// The greatest count of a second and the place of its first event.
#[derive(Clone, Copy, Debug, PartialEq, Eq)]
pub struct Second {
    pub count: usize,
    pub place: usize,
}

// The events from `first` up to `next` are within a second of the first of them. Each turn takes the next event in, or
// lets the first go because the next comes too late for it. It is a `while`, since a turn moves one of two places: a
// `for` would have a second loop inside.
pub fn busiest(times: &[u32]) -> Result<Second, Refusal>
    ensures { second_of result ≡ busiest times.now }
{
    if times.len() > 4096 {
        return Err(Refusal::RunLength);
    }
    let mut first: usize = 0;
    let mut next: usize = 0;
    let mut before: u32 = 0;
    let mut best = Second { count: 0, place: 0 };
    while next < times.len() {
        let time = times[next];
        if time < before {
            return Err(Refusal::TimesDescend);
        }
        if time - times[first] < 1000 {
            before = time;
            next += 1;
            if next - first > best.count {
                best = Second {
                    count: next - first,
                    place: first,
                };
            }
        } else {
            first += 1;
        }
    }
    Ok(best)
}
