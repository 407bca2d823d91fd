// Answers in plain numbers.
ghost use Rattle.std.specs.Prelude.{◌≡◌};
ghost use Rattle.orbits.specs.Orbit.{plain_orbit};
ghost use Rattle.orbits.specs.Index.{plain_index};

use crate::{IndexReply, OrbitAnswer, OrbitReply};
use refusals::{Refusal, number};

impl From<Result<OrbitAnswer, Refusal>> for OrbitReply {
    ghost from_gives = { λ answer r. r ≡ plain_orbit answer };

    fn from(answer: Result<OrbitAnswer, Refusal>) -> OrbitReply {
        match answer {
            Ok(
                OrbitAnswer::Orbit {
                    preperiod,
                    exponent,
                },
            ) => OrbitReply {
                preperiod,
                exponent,
                ..OrbitReply::default()
            },
            Ok(OrbitAnswer::Period { preperiod, period }) => OrbitReply {
                preperiod,
                period,
                ..OrbitReply::default()
            },
            Err(refusal) => OrbitReply {
                refusal: number(refusal),
                ..OrbitReply::default()
            },
        }
    }
}

impl From<Result<Option<u64>, Refusal>> for IndexReply {
    ghost from_gives = { λ answer r. r ≡ plain_index answer };

    fn from(answer: Result<Option<u64>, Refusal>) -> IndexReply {
        match answer {
            Ok(Some(index)) => IndexReply {
                found: 1,
                index,
                ..IndexReply::default()
            },
            Ok(None) => IndexReply::default(),
            Err(refusal) => IndexReply {
                refusal: number(refusal),
                ..IndexReply::default()
            },
        }
    }
}
