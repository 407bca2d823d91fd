// The part of a run that a question asks for, from the bytes of the archive.
ghost use Rattle.std.specs.Prelude.{◌≡◌};
ghost use Rattle.runshow_answer.specs.Decision.{outcome_of, part_of_run};

use crate::decision::Question;
use archive::LineRefusal;
use archive_line::by_number::part_of_line;
use lines::accepted::accepted_run;
use notices::notice::Notice;
use refusals::number;
use runs::Run;
use runshow_output::output::Outcome;
use runshow_text::text::Part;

// The numbers of `many` positions of a run, from position `first` on.
pub fn part_of_run(run: Run, first: u64, many: u64) -> Outcome
    ensures { result ≡ part_of_run run first many }
{
    if first >= run.count || many == 0 {
        return Err(Notice::NotFound);
    }
    Ok(Part { run, first, many })
}

// The archive is checked once: the line asked for is one of its lines, or it is not there. A refusal is told
// by hand: `From` would have to stand in `notices`, which knows no archive.
#[tactic(auto, using(crate::proofs::Answering::answer_refused))]
pub fn answer(bytes: &[u8], question: Question) -> Outcome
    ensures { result ≡ outcome_of bytes.now question.line question.first question.many }
{
    if let Err(LineRefusal { refusal, line }) = archive::checked(bytes) {
        return Err(Notice::Refused(number(refusal), line));
    }
    let Some(part) = part_of_line(bytes, question.line) else {
        return Err(Notice::NotFound);
    };
    let line = &bytes[part.start..part.start + part.length];
    part_of_run(accepted_run(line), question.first, question.many)
}
