// The steps from one number to another, for generators with an odd multiplier. Any numbers have their answer, after two searches.
#![tactic(auto)]

ghost use Rattle.std.specs.Prelude.{◌≡◌};
ghost use Rattle.refusals.specs.Refusals.{check_number};
ghost use Rattle.gaps.specs.Gap.{GapPromise, gap_refusal, plain_gap};

use generator::{Generator, checked, parity_checked};
use orbits::kinds::indices_of;
use refusals::{Refusal, or_else};
use sequences::Indices;

pub mod plain;
pub mod turns;

// For C: found is 0 for never.
#[repr(C)]
#[derive(Clone, Copy, Default)]
pub struct GapReply {
    pub refusal: u64,
    pub found: u64,
    pub steps: i64,
}

// The conditions of the gap call, joined as docs/DECISIONS.md has it.
#[tactic(auto, unfolding(crate::specs::Gap::gap_refusal))]
fn gap_checked(g: Generator) -> Result<(), Refusal>
    ensures { check_number result ≡ gap_refusal g }
{
    or_else(checked(g), parity_checked(g))
}

// The steps from one number to another, back where they are negative, or none. Both searches find the period; it is taken from
// the second, so that it need not be kept during that. Without a preperiod what occurs recurs.
#[tactic(auto, using(crate::proofs::Gaps::gap_accepted, crate::proofs::Gaps::gap_refused))]
pub fn gap(g: Generator, from: u64, to: u64) -> Result<Option<i64>, Refusal>
    ensures { GapPromise g from to (plain_gap result) }
{
    gap_checked(g)?;
    let Indices::Every { index: i, .. } = indices_of(g, from) else {
        return Ok(None);
    };
    let Indices::Every { index: j, last } = indices_of(g, to) else {
        return Ok(None);
    };
    let d = turns::ahead(i, j, last);
    Ok(Some(turns::signed(d, last)))
}
