// A client of the lines: a run is written and read back, and its proof rests on the two calls' contracts alone.
#![tactic(auto)]

ghost use Rattle.std.specs.Prelude.{◌≡◌};
ghost use Rattle.runs.specs.Run.{run_refusal};
ghost use Rattle.lines.specs.ReadLine.{plain_run, run_reply};

use generator::Generator;
use refusals::Refusal;
use runs::Run;

// The run again, or its refusal.
fn round_trip(run: Run) -> Result<Run, Refusal>
    ensures { plain_run result ≡ run_reply (run_refusal run) run }
{
    let mut buffer = [0u8; 107];
    let n = lines::write_line(run, &mut buffer)?;
    lines::read_line(&buffer[..n as usize])
}

fn main() {
    let run = Run {
        generator: Generator {
            width: 10,
            multiplier: 371,
            increment: 995,
            seed: 73,
        },
        first: 100,
        count: 8,
    };
    let Ok(back) = round_trip(run) else {
        check::expect(false);
        return;
    };
    check::expect(back.generator.multiplier == 371);
    check::expect(back.first == 100);
    check::expect(back.count == 8);
}
