// The line that the program writes.
ghost use Rattle.std.specs.Prelude.{◌≡◌, ◌≤◌, length, true};
ghost use Rattle.std.specs.Io.KnownBytes.{Appends};
ghost use Rattle.fields.specs.Codec.{FrontWritten};
ghost use Rattle.runfind_output.specs.Output.{outcome_line};

use archive_io::output::print;
use lookup::Location;
use notices::notice::{Notice, write_notice, write_pair};
use std::io::Write;

// The location found, or what is told in its place.
pub type Outcome = Result<Location, Notice>;

// Prints it, and tells whether it could be written. If not, the complaint goes to standard error.
pub fn print_outcome<W: Write, E: Write>(output: &mut W, errors: &mut E, outcome: Outcome) -> bool
    ensures { result ≡ true → Appends (W.contents output.old) (W.contents output.new) (outcome_line outcome) }
{
    let mut buf = [0u8; 64];
    let n = write_outcome(&mut buf, outcome);
    print(
        output,
        errors,
        &buf[..n],
        b"runfind: the answer could not be written\n",
    )
}

// Writes it from the first byte of the buffer on and answers how many bytes it wrote: there is no heap.
pub fn write_outcome(buf: &mut [u8], outcome: Outcome) -> usize
    requires { 64 ≤ length buf.old }
    ensures { FrontWritten (outcome_line outcome) buf.old buf.new result }
{
    match outcome {
        Ok(Location { line, position }) => write_pair(buf, line, position),
        Err(notice) => write_notice(buf, notice),
    }
}
