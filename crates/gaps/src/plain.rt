// The answer in plain numbers.
ghost use Rattle.std.specs.Prelude.{◌≡◌};
ghost use Rattle.gaps.specs.Gap.{plain_gap};

use crate::GapReply;
use refusals::{Refusal, number};

impl From<Result<Option<i64>, Refusal>> for GapReply {
    ghost from_gives = { λ answer r. r ≡ plain_gap answer };

    fn from(answer: Result<Option<i64>, Refusal>) -> GapReply {
        match answer {
            Ok(Some(steps)) => GapReply {
                found: 1,
                steps,
                ..GapReply::default()
            },
            Ok(None) => GapReply::default(),
            Err(refusal) => GapReply {
                refusal: number(refusal),
                ..GapReply::default()
            },
        }
    }
}
