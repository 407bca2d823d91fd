// A step back of the linear kind, which is asked for, by a clause as in `generator::kinds`.
ghost use Rattle.std.specs.Prelude.{◌≡◌, ◌+◌, ◌%◌, ◌^◌, ◌<◌};
ghost use Rattle.predecessors.specs.Predecessor.{OnlyPredecessor};
ghost use Rattle.generator.specs.Linear.{Linear};

use generator::Generator;
use words::bits::low_bits;
use words::units::inverse;
use words::wrapping_mul;

// The only number that one step of an accepted generator with an odd multiplier takes to y.
pub fn step_back(g: Generator, y: u64) -> u64
    requires { (Linear g) × (g.multiplier % 2 ≡ 1) × (y < 2 ^ g.width) }
    ensures { OnlyPredecessor g y result }
{
    let scaled = y.wrapping_sub(g.increment);
    low_bits(wrapping_mul(inverse(g.multiplier), scaled), g.width)
}
