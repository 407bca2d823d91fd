// The answer in plain numbers.
ghost use Rattle.std.specs.Prelude.{◌≡◌};
ghost use Rattle.summary.specs.Summary.{plain_summary};

use crate::{SummaryReply, Totals};
use archive::LineRefusal;
use refusals::number;

impl From<Result<Totals, LineRefusal>> for SummaryReply {
    ghost from_gives = { λ answer r. r ≡ plain_summary answer };

    fn from(answer: Result<Totals, LineRefusal>) -> SummaryReply {
        match answer {
            Ok(Totals { line_count, total }) => SummaryReply {
                line_count,
                total,
                ..SummaryReply::default()
            },
            Err(declined) => SummaryReply {
                refusal: number(declined.refusal),
                line: declined.line,
                ..SummaryReply::default()
            },
        }
    }
}
