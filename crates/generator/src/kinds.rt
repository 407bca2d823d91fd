// Functions that choose by kind. All they ask is that the generator is accepted: by a clause, since a type of accepted generators
// would ask more of those who call them with the record.
ghost use Rattle.std.specs.Prelude.{◌≡◌};
ghost use Rattle.generator.specs.Recurrence.{element, step};
ghost use Rattle.generator.specs.Check.{refusal_of};
ghost use Rattle.generator.specs.Kinds.{IsElement, Restarted};

use crate::{Generator, Kind, kind_of, linear, prime};

// The element at an index.
pub fn value_of(g: Generator, index: u64) -> u64
    requires { refusal_of g ≡ 0 }
    ensures { result ≡ element g index }
{
    match kind_of(g) {
        Kind::Linear => linear::element_at(g, index),
        Kind::Prime => prime::element_at(g, index),
    }
}

// The element one step after the element x.
pub fn next_of(g: Generator, x: u64) -> u64
    requires { (refusal_of g ≡ 0) × (IsElement g x) }
    ensures { result ≡ step g x }
{
    match kind_of(g) {
        Kind::Linear => linear::next(g, x),
        Kind::Prime => prime::next(g, x),
    }
}

// The same generator with its element x for its seed.
pub fn restarted(g: Generator, x: u64) -> Generator
    requires { (refusal_of g ≡ 0) × (IsElement g x) }
    ensures { Restarted g x result }
{
    Generator { seed: x, ..g }
}
