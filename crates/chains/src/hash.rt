// The slot of some numbers.
ghost use Rattle.std.specs.Prelude.{◌≡◌, ◌≤◌};
ghost use Rattle.chains.specs.Hash.{slot_of};

use words::wrapping_mul;

// By the upper half of the hash: a multiplication in place of a remainder.
pub fn slot(numbers: &[u64], slots: usize) -> usize
    requires { slots ≤ 65536 }
    ensures { result ≡ slot_of numbers.now slots }
{
    let mut h: u64 = 0;
    for &number in numbers {
        h = wrapping_mul(h.wrapping_add(number), 11400714819323198485);
    }
    (h / 4294967296 * (slots as u64) / 4294967296) as usize
}
