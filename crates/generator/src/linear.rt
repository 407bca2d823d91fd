// The linear kind: its conditions on the operands, and its elements by the jump. `Linear` is asked for by a clause, as kinds.rt asks.
ghost use Rattle.std.specs.Prelude.{◌≡◌, ◌≤◌};
ghost use Rattle.generator.specs.Recurrence.{kind_of, element, step};
ghost use Rattle.generator.specs.declared.Kind.TheVariants as kind;
ghost use Rattle.refusals.specs.Refusals.{check_number};
ghost use Rattle.generator.specs.Check.{refusal_of};
ghost use Rattle.generator.specs.Linear.{Linear, once_of};

use crate::Generator;
use affine::{Affine, jump, value_at};
use refusals::Refusal;
use words::bits::{exceeds, low_bits};

// The map of one step.
pub fn once(g: Generator) -> Affine
    ensures { result ≡ once_of g }
{
    Affine {
        factor: g.multiplier,
        offset: g.increment,
    }
}

// The conditions on the operands.
#[tactic(auto, using(crate::proofs::Refusals::modulus_linear), unfolding(crate::specs::Check::refusal_of))]
pub fn checked(g: Generator) -> Result<(), Refusal>
    requires { (kind_of g ≡ kind.Linear) × (g.width ≤ 64) }
    ensures { check_number result ≡ refusal_of g }
{
    if exceeds(g.multiplier, g.width) || exceeds(g.increment, g.width) || exceeds(g.seed, g.width) {
        return Err(Refusal::OperandOutOfRange);
    }
    Ok(())
}

// Element i of an accepted generator.
#[tactic(auto, using(crate::proofs::Walking::element_walks))]
pub fn element_at(g: Generator, index: u64) -> u64
    requires { Linear g }
    ensures { result ≡ element g index }
{
    let map = jump(g.multiplier, g.increment, index);
    low_bits(value_at(map, g.seed), g.width)
}

// The number one step after x.
#[tactic(auto, using(crate::proofs::Walking::next_once))]
pub fn next(g: Generator, x: u64) -> u64
    requires { Linear g }
    ensures { result ≡ step g x }
{
    low_bits(value_at(once(g), x), g.width)
}
