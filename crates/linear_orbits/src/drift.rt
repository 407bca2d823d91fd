// Where a search begins.
ghost use Rattle.std.specs.Prelude.{◌≡◌, ◌+◌, ◌*◌, ◌%◌, ◌^◌};

use affine::value_at;
use generator::Generator;
use generator::linear::once;

// What one step from y leads to, above y.
pub fn drift_from(g: Generator, y: u64) -> u64
    ensures { (result + y) % 2 ^ 64 ≡ (g.multiplier * y + g.increment) % 2 ^ 64 }
{
    value_at(once(g), y).wrapping_sub(y)
}
