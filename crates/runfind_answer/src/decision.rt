// The question and the outcome, by the bytes read.
ghost use Rattle.std.specs.Prelude.{◌≤◌, Some};
ghost use Rattle.archive_io.specs.Decision.{Asked, Decided};
ghost use Rattle.runfind_answer.specs.Decision.{asked_of, outcome_for};

use crate::answer::answer;
use archive_io::input::Input;
use notices::notice::Notice;
use questions::question::ask;
use runfind_output::output::Outcome;

// The number sought, if standard input holds a question: one field. It has at most 21 bytes, so 22 show that it is none.
pub fn asked(input: Input<'_>) -> Option<u64>
    requires { 22 ≤ input.room }
    ensures { Asked asked_of input.entry.bytes.now input.entry.rest result }
{
    let [value] = ask::<1>(input)?;
    Some(value)
}

// The outcome for a question, by the bytes read of the file. An archive has at most 65,536 bytes, so 65,537 show that it is
// too long.
pub fn decide(value: u64, archive: Input<'_>) -> Outcome
    requires in_bounds { 65537 ≤ archive.room }
    ensures { Decided (outcome_for (Some value)) archive.entry.bytes.now archive.entry.rest result }
{
    let bytes = archive.readable().ok_or(Notice::Unread)?;
    answer(bytes, value)
}
