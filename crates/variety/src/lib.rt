// How many different numbers a run shows.
#![tactic(auto)]

ghost use Rattle.refusals.specs.Replies.{plain_value};
ghost use Rattle.variety.specs.Variety.{VarietyPromise};

use counts::variety_of;
use refusals::Refusal;
use runs::{Run, checked};

pub mod counts;
pub mod distinct;

// How many different numbers the run shows.
#[tactic(auto, using(crate::proofs::Varieties::variety_refused))]
pub fn variety(run: Run) -> Result<u64, Refusal>
    ensures { VarietyPromise run (plain_value result) }
{
    checked(run)?;
    Ok(variety_of(run))
}
