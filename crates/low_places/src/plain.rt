// The answer in plain numbers.
ghost use Rattle.std.specs.Prelude.{◌≡◌};
ghost use Rattle.low_places.specs.Places.{plain_places};

use crate::{PlacesAnswer, PlacesReply};
use refusals::{Refusal, number};

impl From<Result<PlacesAnswer, Refusal>> for PlacesReply {
    ghost from_gives = { λ answer r. r ≡ plain_places answer };

    fn from(answer: Result<PlacesAnswer, Refusal>) -> PlacesReply {
        match answer {
            Ok(PlacesAnswer::Once(index)) => PlacesReply {
                found: 1,
                index,
                ..PlacesReply::default()
            },
            Ok(PlacesAnswer::Every { index, exponent }) => PlacesReply {
                found: 1,
                index,
                recurs: 1,
                exponent,
                ..PlacesReply::default()
            },
            Ok(PlacesAnswer::Never) => PlacesReply::default(),
            Err(refusal) => PlacesReply {
                refusal: number(refusal),
                ..PlacesReply::default()
            },
        }
    }
}
