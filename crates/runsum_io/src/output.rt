// What the program `runsum` prints, decided by what was read of the file.
ghost use Rattle.std.specs.Prelude.{◌≤◌, length};
ghost use Rattle.fields.specs.Codec.{FrontWritten};
ghost use Rattle.runsum_io.specs.Output.{OutputPromise, output_of};

use archive::LineRefusal;
use archive_io::input::Input;
use archive_io::output::print;
use notices::notice::{Notice, write_notice};
use refusals::number;
use runsum_text::text::write_text;
use std::io::Write;

// Prints it in one piece.
pub fn print_output<W: Write, E: Write>(output: &mut W, errors: &mut E, archive: Input<'_>)
    requires in_bounds { 65537 ≤ archive.room }
{
    let mut buf = [0u8; 131099];
    let n = write_output(&mut buf, archive);
    print(
        output,
        errors,
        &buf[..n],
        b"runsum: the answer could not be written\n",
    );
}

// Writes it from the first byte of the buffer on and answers how many bytes it wrote: there is no heap. An archive has at most 65,536 bytes,
// so 65,537 show that it is too long; the text has at most twice as many bytes as the archive and 27 more.
#[tactic(auto, using(crate::proofs::Deciding::output_read, crate::proofs::Deciding::output_unread))]
pub fn write_output(buf: &mut [u8], archive: Input<'_>) -> usize
    requires in_bounds { 131099 ≤ length buf.old }
    requires in_bounds_2 { 65537 ≤ archive.room }
    ensures { OutputPromise archive.entry.bytes.now archive.entry.rest buf.old buf.new result }
{
    match archive.readable() {
        Some(bytes) => write_answer(buf, bytes),
        None => write_notice(buf, Notice::Unread),
    }
}

// The same for a file of these bytes. The summary is made first, so that its total is known. A refusal is told by hand, as
// in `runshow_answer`.
fn write_answer(buf: &mut [u8], archive: &[u8]) -> usize
    requires { 131099 ≤ length buf.old }
    ensures { FrontWritten (output_of archive.now) buf.old buf.new result }
{
    match summary::summary(archive) {
        Ok(totals) => write_text(buf, archive, totals.total),
        Err(LineRefusal { refusal, line }) => {
            write_notice(buf, Notice::Refused(number(refusal), line))
        }
    }
}
