// A run as the six numbers of its line. `From` both ways would have to stand in `runs`, which knows no line.
ghost use Rattle.std.specs.Prelude.{◌≡◌, MatchOption, true, false};
ghost use Rattle.fields.specs.Line.{is_line};
ghost use Rattle.lines.specs.Line.{numbers_of, run_of};
ghost use Rattle.lines.specs.ReadLine.{run_in};

use fields::line;
use generator::Generator;
use runs::Run;

// The run of six numbers.
pub fn run_of(numbers: [u64; 6]) -> Run
    ensures { result ≡ run_of numbers }
{
    let [width, multiplier, increment, seed, first, count] = numbers;
    Run {
        generator: Generator {
            width,
            multiplier,
            increment,
            seed,
        },
        first,
        count,
    }
}

// The six numbers of a run.
pub fn numbers_of(run: Run) -> [u64; 6]
    ensures { result ≡ numbers_of run }
{
    let g = run.generator;
    [
        g.width,
        g.multiplier,
        g.increment,
        g.seed,
        run.first,
        run.count,
    ]
}

// The run of a line, accepted or not, if the bytes are a line.
pub fn line_run(bytes: &[u8]) -> Option<Run>
    ensures { MatchOption result (is_line 6 bytes.now ≡ false) (λ run. (is_line 6 bytes.now ≡ true) × (run ≡ run_in bytes.now)) }
{
    line::read_array(bytes).map(run_of)
}
