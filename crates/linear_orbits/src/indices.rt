// The indices of a number, in the low places. `Linear`, and an odd multiplier, are asked for by clauses, as in `generator::kinds`.
ghost use Rattle.std.specs.Prelude.{◌≡◌, ◌+◌, ◌*◌, ◌%◌, ◌^◌, ◌<◌, ◌≤◌};
ghost use Rattle.generator.specs.Recurrence.{modulus, element};
ghost use Rattle.generator.specs.Linear.{Linear};
ghost use Rattle.sequences.specs.Occurrences.{low, IndicesAre};
ghost use Rattle.sequences.specs.Places.{Settles};

use crate::drift::drift_from;
use affine::value_at;
use generator::Generator;
use generator::linear::once;
use search::{Settled, settle};
use sequences::Indices;
use words::bits::{exceeds, low_bits, ones};

// What the search up the bit places settles of the lowest `limit`, for an odd multiplier.
fn settled(g: Generator, y: u64, limit: u64) -> Settled
    requires { (Linear g) × (g.multiplier % 2 ≡ 1) × (limit ≤ g.width) }
    ensures { Settles (element g) y limit result.places result.index result.exponent }
{
    settle(
        g.seed.wrapping_sub(y),
        drift_from(g, y),
        g.multiplier,
        limit,
    )
}

// For an odd multiplier: if all the places can be settled, y is at the index found and every period of the low places further.
fn by_places(g: Generator, places: u64, y: u64) -> Indices
    requires { (Linear g) × (g.multiplier % 2 ≡ 1) × (places ≤ g.width) × (y < 2 ^ places) }
    ensures { IndicesAre (low places (element g)) y (modulus g) result }
{
    let found = settled(g, y, places);
    if found.places < places {
        return Indices::Never;
    }
    Indices::Every {
        index: found.index,
        last: ones(found.exponent),
    }
}

// The low places of the element one step after that whose low places are x. `generator::linear::next` is of all places: by it the
// loop would mask twice.
#[tactic(auto, using(crate::proofs::LinearIndices::low_once))]
fn low_next(g: Generator, places: u64, x: u64) -> u64
    requires { (1 ≤ places) × (places ≤ 64) }
    ensures { result ≡ (g.multiplier * x + g.increment) % 2 ^ places }
{
    low_bits(value_at(once(g), x), places)
}

// For an even multiplier: the low places of the first places + 1 elements, among which is the one that stays. What is found
// comes again if it stays, and otherwise never.
fn by_steps(g: Generator, places: u64, y: u64) -> Indices
    requires { (Linear g) × (g.multiplier % 2 ≡ 0) × (1 ≤ places) × (places ≤ g.width) }
    ensures { IndicesAre (low places (element g)) y (modulus g) result }
{
    let mut x = low_bits(g.seed, places);
    for i in 0..=places {
        let after = low_next(g, places, x);
        if x == y {
            if after == y {
                return Indices::Every { index: i, last: 0 };
            }
            return Indices::Once(i);
        }
        x = after;
    }
    Indices::Never
}

// The indices at which the element's lowest places are y.
pub fn indices(g: Generator, places: u64, y: u64) -> Indices
    requires { (Linear g) × (1 ≤ places) × (places ≤ g.width) }
    ensures { IndicesAre (low places (element g)) y (modulus g) result }
{
    if exceeds(y, places) {
        return Indices::Never;
    }
    if g.multiplier % 2 == 0 {
        return by_steps(g, places, y);
    }
    by_places(g, places, y)
}
