// The numbers of a part of one run as text, a chunk at a time.
ghost use Rattle.std.specs.Prelude.{◌*◌, ◌≤◌, length};
ghost use Rattle.fields.specs.Codec.{FrontWritten};
ghost use Rattle.runshow_text.specs.Text.{ChunkPromise, numbers_lines, part_due};

use decimals::field::write_field;
use remake::filling::fitting;
use runs::Run;

// Writes the numbers to the front of a buffer, each with byte 10 behind it, and gives the number of bytes.
pub fn write_numbers(buf: &mut [u8], numbers: &[u64]) -> usize
    requires { length (numbers_lines numbers.now) ≤ length buf.old }
    ensures { FrontWritten (numbers_lines numbers.now) buf.old buf.new result }
{
    let mut at = 0;
    for &number in numbers {
        at = write_field(buf, at, number, 10);
    }
    at
}

// The part of a run that is asked for: as many numbers, from this position on.
#[derive(Clone, Copy)]
pub struct Part {
    pub run: Run,
    pub first: u64,
    pub many: u64,
}

// How many numbers a chunk has, and how many bytes they take: of lent buffers, since there is no heap.
#[derive(Clone, Copy)]
pub struct Chunk {
    pub made: usize,
    pub bytes: usize,
}

// Remakes as many numbers as there is room for and as are left of those asked for, behind those shown, and writes them to the
// front of the buffer.
pub fn write_chunk(part: Part, shown: u64, numbers: &mut [u64], buf: &mut [u8]) -> Chunk
    requires numbers_in_bounds { 21 * length numbers.old ≤ length buf.old }
    requires shown_bound { shown ≤ part_due part.run part.first part.many }
    ensures { ChunkPromise part.run part.first part.many shown (length numbers.old) buf.old buf.new result }
{
    let Ok(n) = remake::remake(part.run, part.first + shown, numbers) else {
        return Chunk { made: 0, bytes: 0 };
    };
    let made = fitting(n as usize, part.many - shown);
    Chunk {
        made,
        bytes: write_numbers(buf, &numbers[..made]),
    }
}
