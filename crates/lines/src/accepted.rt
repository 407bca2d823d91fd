// Reading bytes that are known to be an accepted line.
ghost use Rattle.std.specs.Prelude.{◌≡◌};
ghost use Rattle.lines.specs.ReadLine.{read_of, run_in};

use crate::numbers::run_of;
use fields::line;
use runs::Run;

// The run of a line that was accepted before: neither the line nor its run is checked again. No Option as in `line_run`, so that
// there is no branch for a line that is none.
pub fn accepted_run(bytes: &[u8]) -> Run
    requires { (read_of bytes.now).refusal ≡ 0 }
    ensures { result ≡ run_in bytes.now }
{
    let mut numbers = [0; 6];
    line::read(bytes, &mut numbers);
    run_of(numbers)
}
