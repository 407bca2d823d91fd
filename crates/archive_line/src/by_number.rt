// The part of a line of an accepted archive, which is asked for by a clause, as in `archive::parts`.
ghost use Rattle.std.specs.Prelude.{◌≡◌, ◌<◌, IfSome};
ghost use Rattle.archive.specs.Check.{check_of};
ghost use Rattle.archive_line.specs.Line.{plain_part, PartPromise};

use crate::Part;
use archive::parts::{Place, places_of};

// The part that the line with that number of an accepted archive is, if there is such a line.
pub fn part_of_line(archive: &[u8], number: u64) -> Option<Part>
    requires { (check_of archive.now).refusal ≡ 0 }
    ensures part { PartPromise archive.now number (plain_part result) }
    ensures some { IfSome result (λ part. 0 < part.length) }
{
    let before = number.checked_sub(1)?;
    let Place { start, end } = places_of(archive).nth(before as usize)?;
    Some(Part {
        start,
        length: end - start,
    })
}
