// The lookup: the earliest location in an archive that shows a number, a line and a position of its run. `lookup` takes any
// bytes and any number. It checks the archive and then searches each line's run, at most 5,461 of them, by one index search.
#![tactic(auto)]

ghost use Rattle.lookup.specs.Lookup.{LookupPromise, plain_lookup};

use archive::{LineRefusal, checked};
pub use location::Location;

pub mod location;
pub mod plain;
pub mod position;

// The same in plain numbers, for C: the refusal's number, 0 for none; the line of the location or of the refusal; found is 0 for none;
// zeros beside a refusal.
#[repr(C)]
#[derive(Clone, Copy, Default)]
pub struct LookupReply {
    pub refusal: u64,
    pub line: u64,
    pub found: u64,
    pub position: u64,
}

// The earliest location in the archive that shows the value.
pub fn lookup(archive: &[u8], value: u64) -> Result<Option<Location>, LineRefusal>
    ensures { LookupPromise archive.now value (plain_lookup result) }
{
    checked(archive)?;
    Ok(location::earliest(archive, value))
}
