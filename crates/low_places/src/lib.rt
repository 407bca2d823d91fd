// All indices of a number of which only the low bit places are legible. Any numbers have their answer, after a search of at most
// as many rounds as places, and one more.
#![tactic(auto)]

ghost use Rattle.std.specs.Prelude.{◌≡◌};
ghost use Rattle.refusals.specs.Refusals.{check_number};
ghost use Rattle.low_places.specs.Places.{PlacesPromise, range_refusal, places_refusal, plain_places};

use generator::{Generator, checked};
use orbits::exponent::exponent_of;
use orbits::kinds::low_indices_of;
use refusals::Refusal;
use sequences::Indices;

pub mod plain;

// As `sequences::Indices`, but with the exponent of the period, as the call tells it, in place of the period less 1.
#[derive(Clone, Copy)]
pub enum PlacesAnswer {
    Once(u64),
    Every { index: u64, exponent: u64 },
    Never,
}

// For C: found is 0 for never; recurs is 0 for the index only, 1 for it and those every 2^exponent further.
#[repr(C)]
#[derive(Clone, Copy, Default)]
pub struct PlacesReply {
    pub refusal: u64,
    pub found: u64,
    pub index: u64,
    pub recurs: u64,
    pub exponent: u64,
}

// The condition of the places call beside those of a generator.
#[tactic(auto, unfolding(crate::specs::Places::range_refusal))]
fn range_checked(g: Generator, places: u64) -> Result<(), Refusal>
    ensures { check_number result ≡ range_refusal g places }
{
    if places == 0 || g.width < places {
        return Err(Refusal::PlacesOutOfRange);
    }
    Ok(())
}

// The conditions of the places call: the range is looked at only where the generator is accepted.
#[tactic(auto, unfolding(crate::specs::Places::places_refusal))]
fn places_checked(g: Generator, places: u64) -> Result<(), Refusal>
    ensures { check_number result ≡ places_refusal g places }
{
    checked(g)?;
    range_checked(g, places)
}

// The least index at which the element's lowest places are `value`, and at which others they are: none, or those every
// 2^exponent further; or never.
#[tactic(auto, using(crate::proofs::Places::places_accepted, crate::proofs::Places::places_refused, crate::proofs::Places::every_power, crate::proofs::Places::places_once, crate::proofs::Places::places_every, crate::proofs::Places::places_never))]
pub fn index_places(g: Generator, places: u64, value: u64) -> Result<PlacesAnswer, Refusal>
    ensures { PlacesPromise g places value (plain_places result) }
{
    places_checked(g, places)?;
    Ok(match low_indices_of(g, places, value) {
        Indices::Once(index) => PlacesAnswer::Once(index),
        Indices::Every { index, last } => PlacesAnswer::Every {
            index,
            exponent: exponent_of(last),
        },
        Indices::Never => PlacesAnswer::Never,
    })
}
