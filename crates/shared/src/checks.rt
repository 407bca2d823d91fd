// The conditions of the call.
ghost use Rattle.std.specs.Prelude.{◌≡◌};
ghost use Rattle.refusals.specs.Refusals.{check_number};
ghost use Rattle.shared.specs.Shared.{rule_refusal, shared_refusal};

use generator::Generator;
use refusals::Refusal;
use runs::{Run, checked};

// Both generators have one rule, with an odd multiplier.
#[tactic(auto, unfolding(crate::specs::Shared::rule_refusal))]
pub fn rule_checked(g: Generator, h: Generator) -> Result<(), Refusal>
    ensures { check_number result ≡ rule_refusal g h }
{
    if g.width != h.width
        || g.multiplier != h.multiplier
        || g.increment != h.increment
        || g.multiplier % 2 == 0
    {
        return Err(Refusal::Incompatible);
    }
    Ok(())
}

// The first run's conditions, the second's, then those on both.
#[tactic(auto, unfolding(crate::specs::Shared::shared_refusal))]
pub fn shared_checked(first: Run, second: Run) -> Result<(), Refusal>
    ensures { check_number result ≡ shared_refusal first second }
{
    checked(first)?;
    checked(second)?;
    rule_checked(first.generator, second.generator)
}
