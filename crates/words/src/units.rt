// The units modulo 2^64: the odd numbers.
ghost use Rattle.std.specs.Prelude.{◌≡◌, ◌*◌, ◌%◌, ◌^◌};
ghost use Rattle.words.specs.Newton.{Doubles};

use crate::wrapping_mul;

// One step of Newton's iteration x (2 - a x): the places in which x inverts a double.
fn newton(a: u64, x: u64) -> u64
    ensures { Doubles a x result }
{
    wrapping_mul(x, 2u64.wrapping_sub(wrapping_mul(a, x)))
}

// The inverse of an odd number. An odd number inverts itself in two places, so five steps give 64.
pub fn inverse(a: u64) -> u64
    requires { a % 2 ≡ 1 }
    ensures { a * result % 2 ^ 64 ≡ 1 }
{
    let x4 = newton(a, a);
    let x8 = newton(a, x4);
    let x16 = newton(a, x8);
    let x32 = newton(a, x16);
    newton(a, x32)
}
