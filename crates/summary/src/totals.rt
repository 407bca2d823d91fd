// The total of an accepted archive's counts; that it is accepted is asked for by a clause, as in `archive::parts`.
ghost use Rattle.std.specs.Prelude.{◌≡◌};
ghost use Rattle.archive.specs.Archive.{runs_in};
ghost use Rattle.archive.specs.Check.{check_of};
ghost use Rattle.summary.specs.Summary.{runs_summary, plain_summary};

use archive::LineRefusal;
use archive::parts::runs_of;
use refusals::Refusal;

// The number of lines and the sum of their counts.
#[derive(Clone, Copy)]
pub struct Totals {
    pub line_count: u64,
    pub total: u64,
}

// The lines counted and their counts added up, as long as the sum fits a word: a sum that does not, never fits again.
pub fn summed(archive: &[u8]) -> Result<Totals, LineRefusal>
    requires { (check_of archive.now).refusal ≡ 0 }
    ensures { plain_summary result ≡ runs_summary (runs_in archive.now) }
{
    let mut line_count = 0;
    let mut total: u64 = 0;
    for (run, line) in runs_of(archive).zip(1..) {
        let Some(sum) = total.checked_add(run.count) else {
            return Err(LineRefusal {
                refusal: Refusal::TotalOverflow,
                line: 0,
            });
        };
        line_count = line;
        total = sum;
    }
    Ok(Totals { line_count, total })
}
