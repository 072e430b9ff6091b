// The questions of many points, x and y in turn.
ghost use Rattle.std.specs.Prelude.{◌≡◌};
ghost use Rattle.rules.specs.Hits.{all_small, fit};

use geom::inner::small::MOST;

// Question 5: is every number given at most 32,767?
pub fn all_small(numbers: &[u32]) -> bool
    ensures { result ≡ all_small numbers.now }
{
    numbers.iter().all(|n| *n <= MOST)
}

// Question 25: of so many numbers, at most 32 points and no x without its y, and three numbers a point in an answer
// list of so many.
pub fn fit(given: usize, lent: usize) -> bool
    ensures { result ≡ fit given lent }
{
    given <= 64 && given % 2 == 0 && 3 * (given / 2) <= lent
}
