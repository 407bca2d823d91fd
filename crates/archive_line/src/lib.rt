// `line` gives the line of an archive with a number, and `line_part` where it stands. Both take any bytes and check the whole
// archive first.
#![tactic(auto)]

ghost use Rattle.archive_line.specs.Line.{LinePromise, PartPromise};

use archive::checked;
use by_number::part_of_line;

pub mod by_number;

// A part of the archive, by its first byte and its length.
#[repr(C)]
#[derive(Clone, Copy)]
pub struct Part {
    pub start: usize,
    pub length: usize,
}

// The part where nothing is, which C is told for none.
const EMPTY: Part = Part {
    start: 0,
    length: 0,
};

// The part that the line with that number is; the empty part if the archive is refused or has no such line.
pub fn line_part(archive: &[u8], number: u64) -> Part
    ensures { PartPromise archive.now number result }
{
    if checked(archive).is_err() {
        return EMPTY;
    }
    part_of_line(archive, number).unwrap_or(EMPTY)
}

// The line with that number, as a part of the archive itself.
pub fn line<'a>(archive: &'a [u8], number: u64) -> &'a [u8]
    ensures { LinePromise archive.now number result.now }
{
    let part = line_part(archive, number);
    let start = part.start;
    let end = start + part.length;
    &archive[start..end]
}
