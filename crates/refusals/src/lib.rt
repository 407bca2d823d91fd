// Why a call declines, and an answer of one number. Two checks are joined here, and an answer told in plain numbers.
#![tactic(auto)]

ghost use Rattle.std.specs.Prelude.{◌≡◌};
ghost use Rattle.refusals.specs.Refusals.{number_of, check_number, or_else};
ghost use Rattle.refusals.specs.Replies.{plain_value};

// Why a call declines; specs/Refusals.antt has the customer's numbers.
#[derive(Clone, Copy)]
pub enum Refusal {
    ArchiveTooLong = 1,
    MalformedLine = 2,
    WidthOutOfRange = 3,
    OperandOutOfRange = 4,
    RunOutOfRange = 5,
    ValueOutOfRange = 6,
    NotInvertible = 7,
    BufferTooShort = 8,
    PlacesOutOfRange = 9,
    TotalOverflow = 10,
    DuplicateLine = 11,
    PositionOutOfRange = 12,
    BookmarkInvalid = 13,
    Inexact = 14,
    LanesOutOfRange = 15,
    Incompatible = 16,
}

// The same in plain numbers, for C: the refusal's number, 0 for none, and the value, 0 beside a refusal.
#[repr(C)]
#[derive(Clone, Copy)]
pub struct ValueReply {
    pub refusal: u64,
    pub value: u64,
}

// The number of a refusal, for those that show it; docs/DEVELOPING.md names it.
pub fn number(refusal: Refusal) -> u64
    ensures { result ≡ number_of refusal }
{
    refusal as u64
}

// Joins two checks: the first refusal counts; docs/DECISIONS.md names it.
pub fn or_else(first: Result<(), Refusal>, second: Result<(), Refusal>) -> Result<(), Refusal>
    ensures { check_number result ≡ or_else (check_number first) (check_number second) }
{
    first.and(second)
}

impl From<Result<u64, Refusal>> for ValueReply {
    ghost from_gives = { λ answer r. r ≡ plain_value answer };

    fn from(answer: Result<u64, Refusal>) -> ValueReply {
        match answer {
            Ok(value) => ValueReply { refusal: 0, value },
            Err(refusal) => ValueReply {
                refusal: number(refusal),
                value: 0,
            },
        }
    }
}
