// A run of a generator: a first index and a count, and what a run must meet.
#![tactic(auto)]

ghost use Rattle.std.specs.Prelude.{◌≡◌};
ghost use Rattle.refusals.specs.Refusals.{check_number};
ghost use Rattle.runs.specs.Run.{run_refusal};

use generator::Generator;
use refusals::Refusal;

pub mod start;

// Position p of a run, below its count, shows element first + p.
#[repr(C)]
#[derive(Clone, Copy)]
pub struct Run {
    pub generator: Generator,
    pub first: u64,
    pub count: u64,
}

// The conditions on a run.
#[tactic(auto, unfolding(crate::specs::Run::run_refusal))]
pub fn checked(run: Run) -> Result<(), Refusal>
    ensures { check_number result ≡ run_refusal run }
{
    generator::checked(run.generator)?;
    if run.count == 0 || run.first.checked_add(run.count).is_none() {
        return Err(Refusal::RunOutOfRange);
    }
    Ok(())
}
