// A fix of a run: two deviates, each the float that is exactly its fraction. Any numbers have their answer, after one jump and one
// step.
#![tactic(auto)]

ghost use Rattle.fixes.specs.Fix.{FixPromise, plain_fix};

use checks::fix_checked;
use deviates::fix_of;
use refusals::Refusal;
use runs::Run;

pub mod checks;
pub mod deviates;
pub mod plain;

#[repr(C)]
#[derive(Clone, Copy, Default)]
pub struct Fix {
    pub east: f64,
    pub north: f64,
}

// For C: the fix is +0.0 twice beside a refusal.
#[repr(C)]
#[derive(Clone, Copy, Default)]
pub struct FixReply {
    pub refusal: u64,
    pub fix: Fix,
}

// The fix with this number: east of position 2 × fix, north of the position behind it.
#[tactic(auto, using(crate::proofs::Promises::fix_refused, crate::proofs::Promises::fix_given))]
pub fn fix_at(run: Run, fix: u64) -> Result<Fix, Refusal>
    ensures { FixPromise run fix (plain_fix result) }
{
    fix_checked(run, fix)?;
    Ok(fix_of(run, fix))
}
