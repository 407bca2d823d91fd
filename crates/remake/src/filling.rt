// The numbers of a run, one after the other.
ghost use Rattle.std.specs.Prelude.{◌≡◌, ◌+◌, ◌^◌, ◌≤◌, ◌<◌, min, length};
ghost use Rattle.generator.specs.Check.{refusal_of};
ghost use Rattle.remake.specs.Remake.{remade_front};

use generator::kinds::{next_of, value_of};
use runs::Run;

// The smaller of the room in a buffer and what is left of a run; `runshow_text` asks for it too.
pub fn fitting(room: usize, left: u64) -> usize
    ensures { result ≡ min room left }
{
    left.min(room as u64) as usize
}

// Writes n numbers of a run, from this position on, to the front of a buffer: one jump, then single steps. It is lent the
// whole buffer, since what stands behind them is promised too.
pub fn fill(run: Run, position: u64, n: usize, numbers: &mut [u64])
    requires generator_value { refusal_of run.generator ≡ 0 }
    requires position_bound { run.first + position < 2 ^ 64 }
    requires n_in_bounds { n ≤ length numbers.old }
    ensures { numbers.new ≡ remade_front run position n numbers.old }
{
    let index = run.first + position;
    let mut number = value_of(run.generator, index);
    for place in &mut numbers[..n] {
        let next = next_of(run.generator, number);
        *place = number;
        number = next;
    }
}
