// Numbers in f64 as whole quarters.
ghost use Rattle.std.specs.Prelude.{◌≡◌};
ghost use Rattle.look.specs.Quarters.{quarters_of, step_of};

// x in quarters, where x is a multiple of 0.25 from 0 to 32,767. Four times x, cut to a whole number, is the only candidate, and is one if its
// quarter is x again: so NaN and the infinities need no test of their own, and -0.0 is 0.
pub fn quarters_of(x: f64) -> Option<u64>
    ensures { result ≡ quarters_of x }
{
    let four = x * 4.0;
    if four > -1.0 && four < 18446744073709551616.0 {
        let q = std::num::truncating_f64_to_u64(four);
        if q <= 131068 && (q as f64) * 0.25 == x {
            return Some(q);
        }
    }
    None
}

// The step of a factor of f quarters: 16 / f for the five factors, and as in the rule 0 for any other.
pub fn step_of(f: u64) -> u64
    ensures { result ≡ step_of f }
{
    match f {
        1 => 16,
        2 => 8,
        4 => 4,
        8 => 2,
        16 => 1,
        _ => 0,
    }
}
