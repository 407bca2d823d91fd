// The question and the outcome, by the bytes read.
ghost use Rattle.std.specs.Prelude.{◌≤◌, Some};
ghost use Rattle.archive_io.specs.Decision.{Asked, Decided};
ghost use Rattle.runshow_answer.specs.Decision.{asked_of, outcome_for};

use crate::answer::answer;
use archive_io::input::Input;
use notices::notice::Notice;
use questions::question::ask;
use runshow_output::output::Outcome;

// The number of a line, a position and how many numbers are to be shown from there on.
#[derive(Clone, Copy)]
pub struct Question {
    pub line: u64,
    pub first: u64,
    pub many: u64,
}

// The question, if standard input holds one: three fields. It has at most 63 bytes, so 64 show that it is none.
pub fn asked(input: Input<'_>) -> Option<Question>
    requires { 64 ≤ input.room }
    ensures { Asked asked_of input.entry.bytes.now input.entry.rest result }
{
    let [line, first, many] = ask::<3>(input)?;
    Some(Question { line, first, many })
}

// The outcome for a question, by the bytes read of the file. An archive has at most 65,536 bytes, so 65,537 show that it is
// too long.
pub fn decide(question: Question, archive: Input<'_>) -> Outcome
    requires in_bounds { 65537 ≤ archive.room }
    ensures { Decided (outcome_for (Some question)) archive.entry.bytes.now archive.entry.rest result }
{
    let bytes = archive.readable().ok_or(Notice::Unread)?;
    answer(bytes, question)
}
