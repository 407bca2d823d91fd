// The conditions of both calls. Run, lanes and lane are the calls' own arguments, as C gives them.
ghost use Rattle.std.specs.Prelude.{◌≡◌};
ghost use Rattle.refusals.specs.Refusals.{check_number};
ghost use Rattle.lanes.specs.Lane.{lane_refusal};

use generator::{Kind, kind_of};
use refusals::Refusal;
use runs::Run;

// The run's conditions, then the kind, the lane and the number of lanes. Of 0 lanes there is no lane, so that the second of these
// finds them too.
#[tactic(auto, unfolding(crate::specs::Lane::lane_refusal))]
pub fn lane_checked(run: Run, lanes: u64, lane: u64) -> Result<(), Refusal>
    ensures { check_number result ≡ lane_refusal run lanes lane }
{
    runs::checked(run)?;
    if let Kind::Prime = kind_of(run.generator) {
        return Err(Refusal::LanesOutOfRange);
    }
    if lanes <= lane || 16 < lanes || run.count < lanes {
        return Err(Refusal::LanesOutOfRange);
    }
    Ok(())
}
