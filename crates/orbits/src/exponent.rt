// The exponent of a period that is a power of two.
ghost use Rattle.std.specs.Prelude.{◌≡◌, suc};
ghost use Rattle.sequences.specs.Orbit.{IsPower, exponent_of};

use words::alpha;

// From the period less 1. A period of 2^64 wraps to 0, whose α is 64.
pub fn exponent_of(last: u64) -> u64
    requires { IsPower (suc last) }
    ensures { result ≡ exponent_of (suc last) }
{
    alpha(last.wrapping_add(1))
}
