// The conditions of the fix call. Run and fix are the call's own arguments, as C gives them.
ghost use Rattle.std.specs.Prelude.{◌≡◌};
ghost use Rattle.refusals.specs.Refusals.{check_number};
ghost use Rattle.fixes.specs.Fix.{fix_refusal};

use generator::{Kind, kind_of};
use refusals::Refusal;
use runs::Run;

// The run's conditions, then the kind, then the later position. A run has half as many fixes as positions, so that position is off
// the run exactly if the number of the fix is not below half the count; no sum is formed, which could wrap.
#[tactic(auto, unfolding(crate::specs::Fix::fix_refusal))]
pub fn fix_checked(run: Run, fix: u64) -> Result<(), Refusal>
    ensures { check_number result ≡ fix_refusal run fix }
{
    runs::checked(run)?;
    if let Kind::Prime = kind_of(run.generator) {
        return Err(Refusal::Inexact);
    }
    if run.count / 2 <= fix {
        return Err(Refusal::PositionOutOfRange);
    }
    Ok(())
}
