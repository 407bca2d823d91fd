// The answer to a question, from the bytes of the archive.
ghost use Rattle.std.specs.Prelude.{◌≡◌};
ghost use Rattle.lookup.specs.Lookup.{lookup_of};
ghost use Rattle.runfind_answer.specs.Decision.{outcome_of};

use archive::LineRefusal;
use notices::notice::Notice;
use refusals::number;
use runfind_output::output::Outcome;

// A refusal is told by hand: `From` would have to stand in `notices`, which knows no archive.
#[tactic(auto, using(crate::proofs::Answering::outcome_found, crate::proofs::Answering::outcome_refused))]
pub fn answer(bytes: &[u8], value: u64) -> Outcome
    ensures { result ≡ outcome_of (lookup_of bytes.now value) }
{
    match lookup::lookup(bytes, value) {
        Ok(found) => found.ok_or(Notice::NotFound),
        Err(LineRefusal { refusal, line }) => Err(Notice::Refused(number(refusal), line)),
    }
}
