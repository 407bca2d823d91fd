// The lanes of a run, one for each watch of a row: a lane is a run of its own, given as a record or written as its line. Any
// numbers and any buffer have their answer, after one jump and the rule of at most 16 steps.
#![tactic(auto)]

ghost use Rattle.refusals.specs.Replies.{plain_value};
ghost use Rattle.lines.specs.ReadLine.{plain_run};
ghost use Rattle.lanes.specs.Lane.{LanePromise};
ghost use Rattle.lanes.specs.WriteLane.{WriteLanePromise};

use checks::lane_checked;
use lines::write_line;
use refusals::Refusal;
use runs::Run;
use split::lane_of;

pub mod checks;
pub mod split;

// The lane with this number, from 0 on, of so many.
#[tactic(auto, using(crate::proofs::Promises::lane_refused, crate::proofs::Promises::lane_given))]
pub fn lane(run: Run, lanes: u64, lane: u64) -> Result<Run, Refusal>
    ensures { LanePromise run lanes lane (plain_run result) }
{
    lane_checked(run, lanes, lane)?;
    Ok(lane_of(run, lanes, lane))
}

// Writes the lane's line from the buffer's first byte on, and gives the number of bytes.
#[tactic(auto, using(crate::proofs::Promises::write_lane_refused, crate::proofs::Promises::write_lane_written))]
pub fn write_lane(run: Run, lanes: u64, lane: u64, buffer: &mut [u8]) -> Result<u64, Refusal>
    ensures { WriteLanePromise run lanes lane buffer.old buffer.new (plain_value result) }
{
    lane_checked(run, lanes, lane)?;
    let own = lane_of(run, lanes, lane);
    write_line(own, buffer)
}
