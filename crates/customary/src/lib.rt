// The customary multiplier of a width, from a table. Any number has its answer.
#![tactic(auto)]

ghost use Rattle.refusals.specs.Replies.{plain_value};
ghost use Rattle.customary.specs.Customary.{CustomaryPromise};

use refusals::Refusal;

pub mod table;

// The customary multiplier of a width.
#[tactic(auto, using(crate::proofs::OddPowers::customary_refused))]
pub fn customary_multiplier(width: u64) -> Result<u64, Refusal>
    ensures { CustomaryPromise width (plain_value result) }
{
    if width < 3 || 64 < width {
        return Err(Refusal::WidthOutOfRange);
    }
    Ok(table::multiplier(width))
}
