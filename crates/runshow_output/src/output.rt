// What the program `runshow` writes: a part of one run, number by number, 1,024 at a time, or what it tells.
ghost use Rattle.std.specs.Prelude.{◌*◌, ◌≤◌, ◌<◌, length};
ghost use Rattle.runshow_output.specs.Output.{ShownPromise, outcome_due};
ghost use Rattle.runshow_text.specs.Text.{part_due};

use archive_io::output::print;
use notices::notice::{Notice, write_notice};
use runshow_text::text::{Chunk, Part, write_chunk};
use std::io::Write;

// The part of a run to be shown, a position below its count and at least one number, or what is told in its place.
pub type Outcome = Result<Part, Notice>;

// Prints what was decided, and tells how many numbers were shown, if all that was to be printed could be written.
pub fn print_outcome<W: Write, E: Write>(
    output: &mut W,
    errors: &mut E,
    outcome: Outcome,
) -> Option<u64>
    ensures { ShownPromise (outcome_due outcome) result }
{
    match outcome {
        Ok(part) => print_part(output, errors, part),
        Err(notice) => print_notice(output, errors, notice),
    }
}

// Each program has its complaint, so that what prints stands in each; what they share is `print` and `write_notice`.
fn print_notice<W: Write, E: Write>(output: &mut W, errors: &mut E, notice: Notice) -> Option<u64>
    ensures { ShownPromise 0 result }
{
    let mut buf = [0u8; 64];
    let n = write_notice(&mut buf, notice);
    let complaint = b"runshow: the answer could not be written\n";
    print(output, errors, &buf[..n], complaint).then_some(0)
}

// A field has at most 20 digits and byte 10, so 1,024 numbers fit 21,504 bytes.
fn print_part<W: Write, E: Write>(output: &mut W, errors: &mut E, part: Part) -> Option<u64>
    ensures { ShownPromise (part_due part.run part.first part.many) result }
{
    let mut numbers = [0u64; 1024];
    let mut buf = [0u8; 21504];
    print_chunks(output, errors, part, &mut numbers, &mut buf)
}

// Prints the numbers, a chunk at a time, up to the last one asked for or the run's end, or until they can't be written. It goes
// on by as many as the chunk made.
fn print_chunks<W: Write, E: Write>(
    output: &mut W,
    errors: &mut E,
    part: Part,
    numbers: &mut [u64],
    buf: &mut [u8],
) -> Option<u64>
    requires numbers_nonzero { 0 < length numbers.old }
    requires numbers_in_bounds { 21 * length numbers.old ≤ length buf.old }
    ensures { ShownPromise (part_due part.run part.first part.many) result }
{
    let mut shown = 0;
    while shown < part.many {
        let Chunk { made, bytes } = write_chunk(part, shown, numbers, buf);
        if made == 0 {
            break;
        }
        let complaint = b"runshow: the numbers could not be written\n";
        if !print(output, errors, &buf[..bytes], complaint) {
            return None;
        }
        shown += made as u64;
    }
    Some(shown)
}
