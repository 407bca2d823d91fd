// The predecessor of a number. Any numbers have their answer.
#![tactic(auto)]

ghost use Rattle.std.specs.Prelude.{◌≡◌};
ghost use Rattle.generator.specs.Recurrence as recurrence;
ghost use Rattle.refusals.specs.Refusals.{check_number};
ghost use Rattle.refusals.specs.Replies.{plain_value};
ghost use Rattle.predecessors.specs.Predecessor.{predecessor_refusal, PredecessorPromise};

use generator::{Generator, checked, parity_checked};
use kinds::out_of_range;
use refusals::Refusal;

pub mod kinds;
pub mod linear;
pub mod prime;

// The conditions of the predecessor call.
#[tactic(auto, unfolding(crate::specs::Predecessor::predecessor_refusal))]
fn predecessor_checked(g: Generator, value: u64) -> Result<(), Refusal>
    ensures { check_number result ≡ predecessor_refusal g value }
{
    checked(g)?;
    if out_of_range(g, value) {
        return Err(Refusal::ValueOutOfRange);
    }
    parity_checked(g)
}

// The only number that one step takes to `value`.
#[tactic(auto, using(crate::proofs::StepBack::predecessor_refused, crate::proofs::StepBack::predecessor_given))]
pub fn predecessor(g: Generator, value: u64) -> Result<u64, Refusal>
    ensures { PredecessorPromise g value (plain_value result) }
{
    predecessor_checked(g, value)?;
    Ok(kinds::previous_of(g, value))
}
