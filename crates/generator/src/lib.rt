// A generator: its kind, what it must meet, and its elements. Any numbers have their answer.
#![tactic(auto)]

ghost use Rattle.std.specs.Prelude.{◌≡◌};
ghost use Rattle.generator.specs.Recurrence as recurrence;
ghost use Rattle.refusals.specs.Refusals.{check_number};
ghost use Rattle.generator.specs.Check.{refusal_of, parity_refusal};
ghost use Rattle.refusals.specs.Replies.{plain_value, value_reply};
ghost use Rattle.generator.specs.Kinds.{KindIs};

use refusals::Refusal;

pub mod kinds;
pub mod linear;
pub mod prime;

#[repr(C)]
#[derive(Clone, Copy)]
pub struct Generator {
    pub width: u64,
    pub multiplier: u64,
    pub increment: u64,
    pub seed: u64,
}

#[derive(Clone, Copy)]
pub enum Kind {
    Linear,
    Prime,
}

// The kind, which C gives by the width. Nothing else looks at the width for it.
pub fn kind_of(g: Generator) -> Kind
    ensures { KindIs g result }
{
    if g.width == 0 {
        return Kind::Prime;
    }
    Kind::Linear
}

// The conditions that every call on a generator checks first.
#[tactic(auto, unfolding(crate::specs::Check::refusal_of))]
pub fn checked(g: Generator) -> Result<(), Refusal>
    ensures { check_number result ≡ refusal_of g }
{
    if 64 < g.width {
        return Err(Refusal::WidthOutOfRange);
    }
    match kind_of(g) {
        Kind::Linear => linear::checked(g),
        Kind::Prime => prime::checked(g),
    }
}

// The condition of the calls that go back: the multiplier is odd.
#[tactic(auto, unfolding(crate::specs::Check::parity_refusal))]
pub fn parity_checked(g: Generator) -> Result<(), Refusal>
    ensures { check_number result ≡ parity_refusal g }
{
    if g.multiplier % 2 == 0 {
        return Err(Refusal::NotInvertible);
    }
    Ok(())
}

// Element i of a generator.
pub fn element(g: Generator, index: u64) -> Result<u64, Refusal>
    ensures { plain_value result ≡ value_reply (refusal_of g) (recurrence.element g index) }
{
    checked(g)?;
    Ok(kinds::value_of(g, index))
}
