// What two runs share. Any two runs have their answer, after one search.
#![tactic(auto)]

ghost use Rattle.refusals.specs.Replies.{plain_value};
ghost use Rattle.shared.specs.Shared.{SharedPromise};

use checks::shared_checked;
use counts::shared_of;
use refusals::Refusal;
use runs::Run;

pub mod checks;
pub mod circle;
pub mod counts;

// How many different numbers occur in both runs.
#[tactic(auto, using(crate::proofs::Shares::shared_refused, crate::proofs::Shares::shared_given))]
pub fn shared(first: Run, second: Run) -> Result<u64, Refusal>
    ensures { SharedPromise first second (plain_value result) }
{
    shared_checked(first, second)?;
    Ok(shared_of(first, second))
}
