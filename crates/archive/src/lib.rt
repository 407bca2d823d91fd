// Archives. `checked` tells whether some bytes are one, or why not and in which line. It takes any bytes; no more than 65,536
// are looked at. A line is compared only with the earlier ones of its slot, by tables on the stack of at most 4,096 slots and
// 5,462 entries.
#![tactic(auto)]

ghost use Rattle.archive.specs.Check.{CheckPromise, plain_check};

use refusals::Refusal;

pub mod checks;
pub mod parts;

// Why an archive declines, and in which line: 0 beside 1 and 10, as C and the programs tell it.
#[derive(Clone, Copy)]
pub struct LineRefusal {
    pub refusal: Refusal,
    pub line: u64,
}

// The whole archive: its length, then its lines. Few slots for a short one: to clear more would take longer than its check.
// For any other as many slots as a full archive has lines of 16 bytes.
pub fn checked(archive: &[u8]) -> Result<(), LineRefusal>
    ensures { CheckPromise archive.now (plain_check result) }
{
    if 65536 < archive.len() {
        return Err(LineRefusal {
            refusal: Refusal::ArchiveTooLong,
            line: 0,
        });
    }
    if archive.len() <= 1024 {
        return checks::checked_with::<64, 86>(archive);
    }
    checks::checked_with::<4096, 5462>(archive)
}
