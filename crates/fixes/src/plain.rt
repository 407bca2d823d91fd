// The answer in plain numbers.
ghost use Rattle.std.specs.Prelude.{◌≡◌};
ghost use Rattle.fixes.specs.Fix.{plain_fix};

use crate::{Fix, FixReply};
use refusals::{Refusal, number};

impl From<Result<Fix, Refusal>> for FixReply {
    ghost from_gives = { λ answer r. r ≡ plain_fix answer };

    fn from(answer: Result<Fix, Refusal>) -> FixReply {
        match answer {
            Ok(fix) => FixReply { refusal: 0, fix },
            Err(refusal) => FixReply {
                refusal: number(refusal),
                ..FixReply::default()
            },
        }
    }
}
