// Where a run starts. That it is accepted is a clause and no type, as for a generator in `generator::kinds`.
ghost use Rattle.std.specs.Prelude.{◌≡◌};
ghost use Rattle.runs.specs.Run.{run_refusal, FromFirst};

use crate::Run;
use generator::Generator;
use generator::kinds::{restarted, value_of};

// The generator of an accepted run from the run's first element on: its index p is the run's position p.
#[tactic(auto, using(crate::proofs::Runs::valid_run, crate::proofs::Runs::starts_at))]
pub fn from_first(run: Run) -> Generator
    requires { run_refusal run ≡ 0 }
    ensures { FromFirst run result }
{
    let g = run.generator;
    restarted(g, value_of(g, run.first))
}
