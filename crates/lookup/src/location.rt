// Locations in an accepted archive, which is asked for by a clause, as in `archive::parts`.
ghost use Rattle.std.specs.Prelude.{◌≡◌};
ghost use Rattle.archive.specs.Archive.{runs_in};
ghost use Rattle.archive.specs.Check.{check_of};
ghost use Rattle.lookup.specs.Lookup.{first_showing, plain_location};

use crate::position::position_in;
use archive::parts::runs_of;

// A line by its number, and a position of its run.
#[derive(Clone, Copy)]
pub struct Location {
    pub line: u64,
    pub position: u64,
}

// The earliest location in an accepted archive that shows y.
pub fn earliest(archive: &[u8], y: u64) -> Option<Location>
    requires { (check_of archive.now).refusal ≡ 0 }
    ensures { plain_location result ≡ first_showing 1 (runs_in archive.now) y }
{
    for (run, line) in runs_of(archive).zip(1..) {
        if let Some(position) = position_in(run, y) {
            return Some(Location { line, position });
        }
    }
    None
}
