// Functions that choose by kind. All they ask is that the generator is accepted, and of low places that it has as many: by
// clauses, as in `generator::kinds`.
ghost use Rattle.std.specs.Prelude.{◌≡◌, ◌≤◌};
ghost use Rattle.sequences.specs.Orbit.{OrbitIs};
ghost use Rattle.sequences.specs.Occurrences.{low, IndicesAre};
ghost use Rattle.generator.specs.Recurrence.{modulus, element};
ghost use Rattle.generator.specs.Check.{refusal_of};

use crate::prime;
use generator::{Generator, Kind, kind_of};
use sequences::{Indices, Orbit};

// The orbit of a generator.
#[tactic(auto, using(generator::proofs::Refusals::kind_told))]
pub fn orbit_of(g: Generator) -> Orbit
    requires { refusal_of g ≡ 0 }
    ensures { OrbitIs (element g) (modulus g) result }
{
    match kind_of(g) {
        Kind::Linear => linear_orbits::orbit::orbit(g),
        Kind::Prime => prime::orbit(g),
    }
}

// The indices that yield y.
pub fn indices_of(g: Generator, y: u64) -> Indices
    requires { refusal_of g ≡ 0 }
    ensures { IndicesAre (element g) y (modulus g) result }
{
    match kind_of(g) {
        Kind::Linear => linear_orbits::indices::indices(g, g.width, y),
        Kind::Prime => prime::indices(g, y),
    }
}

// The indices at which the element's lowest places are y. A generator that has bit places is of the linear kind.
pub fn low_indices_of(g: Generator, places: u64, y: u64) -> Indices
    requires { (refusal_of g ≡ 0) × (1 ≤ places) × (places ≤ g.width) }
    ensures { IndicesAre (low places (element g)) y (modulus g) result }
{
    linear_orbits::indices::indices(g, places, y)
}
