// Remakes a part of a run: what its positions show, one number after the other.
#![tactic(auto)]

ghost use Rattle.refusals.specs.Replies.{plain_value};
ghost use Rattle.remake.specs.Remake.{RemakePromise};

use filling::{fill, fitting};
use refusals::Refusal;
use runs::{Run, checked};

pub mod filling;

// Writes what the run shows from this position on to the buffer's front, as much as both have, and gives how many numbers.
#[tactic(auto, using(crate::proofs::Remakes::remake_refused, crate::proofs::Remakes::remake_done))]
pub fn remake(run: Run, position: u64, numbers: &mut [u64]) -> Result<u64, Refusal>
    ensures { RemakePromise run position numbers.old numbers.new (plain_value result) }
{
    checked(run)?;
    if run.count <= position {
        return Ok(0);
    }
    let given = fitting(numbers.len(), run.count - position);
    fill(run, position, given, numbers);
    Ok(given as u64)
}
