// Where one run shows a number. That it is accepted is asked for, by a clause as in `generator::kinds`.
ghost use Rattle.std.specs.Prelude.{◌≡◌, ◌<◌, SomeIff};
ghost use Rattle.runs.specs.Run.{run_refusal};
ghost use Rattle.lookup.specs.Lookup.{position_of};

use orbits::kinds::indices_of;
use runs::Run;
use runs::start::from_first;

// The least position of an accepted run that shows y: the index search from the run's first element on.
pub fn position_in(run: Run, y: u64) -> Option<u64>
    requires { run_refusal run ≡ 0 }
    ensures { SomeIff result (position_of run y < run.count) (position_of run y) }
{
    let least = indices_of(from_first(run), y).least();
    least.filter(|position| *position < run.count)
}
