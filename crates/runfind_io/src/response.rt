// What the program `runfind` prints: standard input is read before, and the file if there is a question.
ghost use Rattle.std.specs.Prelude.{◌≡◌, ◌≤◌, None, length, take};
ghost use Rattle.archive_io.specs.Decision.{Answered};
ghost use Rattle.runfind_answer.specs.Decision.{asked_of, outcome_for};

use archive_io::input::{Filled, Input, fill_archive, not_read};
use notices::notice::Notice;
use runfind_answer::decision::{asked, decide};
use runfind_output::output::Outcome;
use std::rt::Files;

// What is to be printed, and what was read of the file, which the promise of `respond` speaks of.
#[derive(Clone, Copy)]
pub struct Response {
    pub outcome: Outcome,
    pub archive: Filled,
}

// The outcome for what was read of standard input. The file is opened, and read into `buf`, only if there is a question.
// `runshow_io` has a like pair: one for both would take two callees with the clauses of each, and the definitions of a question and its
// outcome, so it is no plainer than the few lines.
pub fn respond(rt: &impl Files, input: Input<'_>, buf: &mut [u8]) -> Response
    requires in_bounds { 22 ≤ input.room }
    requires in_bounds_2 { 65537 ≤ length buf.old }
    ensures answered { Answered asked_of None outcome_for input.entry.bytes.now input.entry.rest (take result.archive.n buf.new) result.archive.rest result.outcome }
    ensures room { result.archive.room ≡ length buf.new }
{
    let Some(value) = asked(input) else {
        return Response {
            outcome: Err(Notice::BadQuestion),
            archive: not_read(buf),
        };
    };
    let archive = fill_archive(rt, buf);
    let outcome = decide(value, Input::of(buf, archive));
    Response { outcome, archive }
}
