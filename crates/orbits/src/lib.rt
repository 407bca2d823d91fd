// The orbit of a generator and the least index of a number. No search makes more than n + 1 rounds, n the width, and for the
// prime-modulus models none makes more than 539 comparisons with a root of unity.
#![tactic(auto)]

ghost use Rattle.orbits.specs.Orbit.{OrbitPromise, plain_orbit};
ghost use Rattle.orbits.specs.Index.{IndexPromise, plain_index};

use exponent::exponent_of;
use generator::{Generator, Kind, checked, kind_of};
use refusals::Refusal;
use sequences::Orbit;

pub mod exponent;
pub mod kinds;
pub mod plain;
pub mod prime;

// The period is given by its exponent of 2, or itself.
#[derive(Clone, Copy)]
pub enum OrbitAnswer {
    Orbit { preperiod: u64, exponent: u64 },
    Period { preperiod: u64, period: u64 },
}

// The same in plain numbers, for C: the refusal's number, 0 for none, and zeros beside a refusal. Where period is 0 it is 2^exponent,
// otherwise it is the period itself, and exponent is 0.
#[repr(C)]
#[derive(Clone, Copy, Default)]
pub struct OrbitReply {
    pub refusal: u64,
    pub preperiod: u64,
    pub exponent: u64,
    pub period: u64,
}

// For C: found is 0 for never.
#[repr(C)]
#[derive(Clone, Copy, Default)]
pub struct IndexReply {
    pub refusal: u64,
    pub found: u64,
    pub index: u64,
}

// The preperiod and the period of a generator.
#[tactic(auto, using(crate::proofs::Orbits::orbit_refused, crate::proofs::Orbits::orbit_power, crate::proofs::Orbits::prime_last, crate::proofs::Orbits::orbit_linear, crate::proofs::Orbits::orbit_prime))]
pub fn orbit(g: Generator) -> Result<OrbitAnswer, Refusal>
    ensures { OrbitPromise g (plain_orbit result) }
{
    checked(g)?;
    let found = kinds::orbit_of(g);
    Ok(match kind_of(g) {
        Kind::Linear => OrbitAnswer::Orbit {
            preperiod: found.preperiod,
            exponent: exponent_of(found.last),
        },
        Kind::Prime => OrbitAnswer::Period {
            preperiod: found.preperiod,
            period: found.last + 1,
        },
    })
}

// The least index that yields `value`, or none. It has a search for each kind, and not the one of `kinds` for both: that would
// be too long to be compiled into the call.
#[tactic(auto, using(crate::proofs::Indices::index_refused, crate::proofs::Indices::index_given))]
pub fn index(g: Generator, value: u64) -> Result<Option<u64>, Refusal>
    ensures { IndexPromise g value (plain_index result) }
{
    checked(g)?;
    match kind_of(g) {
        Kind::Linear => Ok(linear_orbits::indices::indices(g, g.width, value).least()),
        Kind::Prime => Ok(prime::indices(g, value).least()),
    }
}
