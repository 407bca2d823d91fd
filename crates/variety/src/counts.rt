// The variety of a run that is known to be accepted, by a clause as in `generator::kinds`.
ghost use Rattle.std.specs.Prelude.{◌≡◌};
ghost use Rattle.runs.specs.Run.{run_refusal};
ghost use Rattle.variety.specs.Variety.{variety_of};

use crate::distinct::distinct_values;
use orbits::kinds::orbit_of;
use runs::Run;

// How many different numbers it shows, read off the generator's orbit.
#[tactic(auto, using(runs::proofs::Runs::valid_run, crate::proofs::Varieties::variety_is))]
pub fn variety_of(run: Run) -> u64
    requires { run_refusal run ≡ 0 }
    ensures { result ≡ variety_of run }
{
    let orbit = orbit_of(run.generator);
    distinct_values(orbit, run.first, run.count)
}
