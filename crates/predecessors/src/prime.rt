// Predecessors of the prime-modulus models, which are asked for, by a clause as in `generator::kinds`.
ghost use Rattle.std.specs.Prelude.{◌<◌};
ghost use Rattle.predecessors.specs.Predecessor.{OnlyPredecessor};
ghost use Rattle.generator.specs.Prime.{Prime};

use generator::Generator;

// The only number that one step takes to y.
pub fn step_back(g: Generator, y: u64) -> u64
    requires { (Prime g) × (y < 2147483647) }
    ensures { OnlyPredecessor g y result }
{
    powers::steps::previous(y)
}
