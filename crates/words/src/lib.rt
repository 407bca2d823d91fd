// 64-bit machine arithmetic: the product modulo 2^64, the first place in which two numbers differ.
#![tactic(auto)]

ghost use Rattle.std.specs.Prelude.{◌≡◌, ◌*◌, ◌%◌, ◌^◌};
ghost use Rattle.words.specs.Alpha.{Alpha, FirstDifference};

pub mod bits;
pub mod units;

// a * b modulo 2^64. By a rule of the project the product is our own, over 32-bit halves, and not std's: the product of the high
// halves is a multiple of 2^64.
pub fn wrapping_mul(a: u64, b: u64) -> u64
    ensures { result ≡ a * b % 2 ^ 64 }
{
    let a_low = a % 4294967296;
    let b_low = b % 4294967296;
    let cross = (a / 4294967296 * b_low).wrapping_add(a_low * (b / 4294967296));
    (a_low * b_low).wrapping_add(cross << 32)
}

// α of z; 64 for z = 0.
pub fn alpha(z: u64) -> u64
    ensures { Alpha z result }
{
    z.trailing_zeros() as u64
}

// The first bit place in which a and b differ, 64 where they are equal: α of their difference modulo 2^64.
pub fn first_difference(a: u64, b: u64) -> u64
    ensures { FirstDifference a b result }
{
    alpha(a.wrapping_sub(b))
}
