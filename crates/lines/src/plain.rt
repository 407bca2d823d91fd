// Answers in plain numbers.
ghost use Rattle.std.specs.Prelude.{◌≡◌};
ghost use Rattle.lines.specs.ReadLine.{plain_run};

use crate::RunReply;
use generator::Generator;
use refusals::{Refusal, number};
use runs::Run;

// The run of zeros. It has no `Default`, since no call accepts it.
const NO_RUN: Run = Run {
    generator: Generator {
        width: 0,
        multiplier: 0,
        increment: 0,
        seed: 0,
    },
    first: 0,
    count: 0,
};

impl From<Result<Run, Refusal>> for RunReply {
    ghost from_gives = { λ answer r. r ≡ plain_run answer };

    fn from(answer: Result<Run, Refusal>) -> RunReply {
        match answer {
            Ok(run) => RunReply { refusal: 0, run },
            Err(refusal) => RunReply {
                refusal: number(refusal),
                run: NO_RUN,
            },
        }
    }
}
