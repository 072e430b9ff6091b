// Fit: the greatest factor with which the window passes the target in neither width nor height.
ghost use Rattle.std.specs.Prelude.{◌≡◌, ◌≤◌};
ghost use Rattle.look.specs.Quarters.{fits_both, fit_quarters, fitted_of};

use crate::quarters::step_of;
use crate::{Sizes, Steps};

// Does a factor of f quarters, multiplied by the window's width and height, pass neither the target's width nor its height?
fn fits_both(f: u64, s: Sizes) -> bool
    requires { f ≤ 16 }
    ensures { result ≡ fits_both f s }
{
    f * u64::from(s.w) <= u64::from(s.tw) * 4 && f * u64::from(s.h) <= u64::from(s.th) * 4
}

// The factor of fit, in quarters.
fn fit(s: Sizes) -> u64
    ensures { result ≡ fit_quarters s }
{
    if fits_both(16, s) {
        return 16;
    }
    if fits_both(8, s) {
        return 8;
    }
    if fits_both(4, s) {
        return 4;
    }
    if fits_both(2, s) {
        return 2;
    }
    1
}

// What fit takes: the corner (0,0), and its factor.
pub fn fitted(s: Sizes) -> Steps
    ensures { result ≡ fitted_of s }
{
    Steps {
        x: 0,
        y: 0,
        step: step_of(fit(s)),
    }
}
