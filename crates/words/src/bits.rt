// The low bits of a number.
ghost use Rattle.std.specs.Prelude.{◌≡◌, ◌+◌, ◌%◌, ◌^◌, ◌≤◌, nat_le};

// x modulo 2^n, for every n from 1 to 64.
pub fn low_bits(x: u64, n: u64) -> u64
    requires { (1 ≤ n) × (n ≤ 64) }
    ensures { result ≡ x % 2 ^ n }
{
    x & (u64::MAX >> (64 - n))
}

// The number of n ones, for every n from 0 to 64.
pub fn ones(n: u64) -> u64
    requires { n ≤ 64 }
    ensures { result + 1 ≡ 2 ^ n }
{
    if n == 0 { 0 } else { u64::MAX >> (64 - n) }
}

// Whether x is 2^n or more.
pub fn exceeds(x: u64, n: u64) -> bool
    requires { (1 ≤ n) × (n ≤ 64) }
    ensures { result ≡ nat_le (2 ^ n) x }
{
    low_bits(x, n) != x
}
