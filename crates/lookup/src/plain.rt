// The answer in plain numbers.
ghost use Rattle.std.specs.Prelude.{◌≡◌};
ghost use Rattle.lookup.specs.Lookup.{plain_lookup};

use crate::{Location, LookupReply};
use archive::LineRefusal;
use refusals::number;

impl From<Result<Option<Location>, LineRefusal>> for LookupReply {
    ghost from_gives = { λ answer r. r ≡ plain_lookup answer };

    fn from(answer: Result<Option<Location>, LineRefusal>) -> LookupReply {
        match answer {
            Ok(Some(Location { line, position })) => LookupReply {
                refusal: 0,
                line,
                found: 1,
                position,
            },
            Ok(None) => LookupReply::default(),
            Err(declined) => LookupReply {
                refusal: number(declined.refusal),
                line: declined.line,
                ..LookupReply::default()
            },
        }
    }
}
