// The check of an archive that is not too long: each line is read, and compared with those before it in its slot.
ghost use Rattle.std.specs.Prelude.{◌≡◌, [], ◌-◌, ◌*◌, ◌<◌, ◌≤◌, length, take, drop, MatchResult};
ghost use Rattle.chains.specs.Chains.{Tables};
ghost use Rattle.refusals.specs.Refusals.{number_of};
ghost use Rattle.lines.specs.Line.{line_of};
ghost use Rattle.lines.specs.ReadLine.{ReadPromise, accepted_run, refused_run};
ghost use Rattle.archive.specs.Chained.{Chained, SeenLine};
ghost use Rattle.archive.specs.Check.{CheckPromise, plain_check};

use crate::LineRefusal;
use crate::parts::{Place, places_of};
use chains::chains::Chains;
use chains::hash::slot;
use lines::numbers::numbers_of;
use lines::read_line;
use refusals::Refusal;
use runs::Run;

// Whether the line of that run, from `at` to `end`, equals one in the chains. It is added to them. Both as `chains` takes them.
pub fn line_seen(archive: &[u8], at: usize, end: usize, run: Run, chains: &mut Chains<'_>) -> bool
    requires archive_len_bound { length archive.now ≤ 65536 }
    requires at_le_end { at ≤ end }
    requires end_in_bounds { end ≤ length archive.now }
    requires archive_value { take (end - at) (drop at archive.now) ≡ line_of run }
    requires tables { Tables archive.now at chains.old.head.now chains.old.next.now }
    ensures seen { SeenLine archive.now at end chains.old.head.now chains.old.next.now chains.new.head.now chains.new.next.now result }
    ensures same_head { chains.new.head.ghost_name ≡ chains.old.head.ghost_name }
    ensures same_next { chains.new.next.ghost_name ≡ chains.old.next.ghost_name }
{
    let numbers = numbers_of(run);
    let slot = slot(&numbers, chains.head.len());
    chains.seen_before(archive, at, end, slot)
}

// The run of a line, or why it is refused and where.
fn read_numbered(bytes: &[u8], line: u64) -> Result<Run, LineRefusal>
    ensures { MatchResult result (λ run. ReadPromise bytes.now (accepted_run run)) (λ e. ReadPromise bytes.now (refused_run (number_of e.refusal)) × (e.line ≡ line)) }
{
    read_line(bytes).map_err(|refusal| LineRefusal { refusal, line })
}

// The lines one after the other, from empty chains on.
pub fn lines_checked(archive: &[u8], chains: &mut Chains<'_>) -> Result<(), LineRefusal>
    requires archive_len_bound { length archive.now ≤ 65536 }
    requires chained { Chained archive.now 0 chains.old.head.now chains.old.next.now [] }
    ensures promise { CheckPromise archive.now (plain_check result) }
    ensures same_head { chains.new.head.ghost_name ≡ chains.old.head.ghost_name }
    ensures same_next { chains.new.next.ghost_name ≡ chains.old.next.ghost_name }
{
    for (Place { start, end }, line) in places_of(archive).zip(1..) {
        let run = read_numbered(&archive[start..end], line)?;
        if line_seen(archive, start, end, run, chains) {
            return Err(LineRefusal {
                refusal: Refusal::DuplicateLine,
                line,
            });
        }
    }
    Ok(())
}

// The lines by chains of SLOTS slots with an entry for every 12 bytes.
pub fn checked_with<const SLOTS: usize, const ENTRIES: usize>(
    archive: &[u8],
) -> Result<(), LineRefusal>
    requires slots_bound { (0 < SLOTS) × (SLOTS ≤ 65536) }
    requires archive_len_bound { length archive.now ≤ 65536 }
    requires entries_bound { (length archive.now ≤ 12 * ENTRIES) × (ENTRIES ≤ 65536) }
    ensures { CheckPromise archive.now (plain_check result) }
{
    let mut head = [0u16; SLOTS];
    let mut next = [0u16; ENTRIES];
    lines_checked(
        archive,
        &mut Chains {
            head: &mut head,
            next: &mut next,
        },
    )
}
