// The summary of an archive: how many lines it has, and the sum of their counts. `summary` takes any bytes, checks them and
// then goes once over the lines. A sum above 2^64 - 1 is declined.
#![tactic(auto)]

ghost use Rattle.summary.specs.Summary.{SummaryPromise, plain_summary};

use archive::{LineRefusal, checked};
pub use totals::Totals;

pub mod plain;
pub mod totals;

// The same in plain numbers, for C: the refusal's number, 0 for none, and its line; zeros beside a refusal.
#[repr(C)]
#[derive(Clone, Copy, Default)]
pub struct SummaryReply {
    pub refusal: u64,
    pub line: u64,
    pub line_count: u64,
    pub total: u64,
}

// How many lines the archive has, and the sum of their counts.
pub fn summary(archive: &[u8]) -> Result<Totals, LineRefusal>
    ensures { SummaryPromise archive.now (plain_summary result) }
{
    checked(archive)?;
    totals::summed(archive)
}
