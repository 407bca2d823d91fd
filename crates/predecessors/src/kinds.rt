// Functions that choose by kind. All they ask is that the generator is accepted, by a clause, as in `generator::kinds`.
ghost use Rattle.std.specs.Prelude.{◌≡◌};
ghost use Rattle.generator.specs.Check.{refusal_of};
ghost use Rattle.predecessors.specs.Predecessor.{value_out_of_range, predecessor_refusal, OnlyPredecessor};

use crate::{linear, prime};
use generator::{Generator, Kind, kind_of};
use words::bits::exceeds;

// Whether a number is one that no generator like this one yields.
#[tactic(auto, using(crate::proofs::StepBack::range_linear, crate::proofs::StepBack::range_prime))]
pub fn out_of_range(g: Generator, value: u64) -> bool
    requires { refusal_of g ≡ 0 }
    ensures { result ≡ value_out_of_range g value }
{
    match kind_of(g) {
        Kind::Linear => exceeds(value, g.width),
        Kind::Prime => generator::prime::out_of_range(value),
    }
}

// The only number that one step takes to y.
#[tactic(auto, using(crate::proofs::StepBack::invertible, crate::proofs::StepBack::prime_invertible))]
pub fn previous_of(g: Generator, y: u64) -> u64
    requires { predecessor_refusal g y ≡ 0 }
    ensures { OnlyPredecessor g y result }
{
    match kind_of(g) {
        Kind::Linear => linear::step_back(g, y),
        Kind::Prime => prime::step_back(g, y),
    }
}
