// The deviates of an accepted fix.
ghost use Rattle.std.specs.Prelude.{◌≡◌, ◌^◌, ◌≤◌, ◌<◌};
ghost use Rattle.fixes.specs.Deviate.{places_of, deviate_of};
ghost use Rattle.fixes.specs.Fix.{fix_refusal, fix_of};

use crate::Fix;
use generator::kinds::{next_of, value_of};
use runs::Run;

// How many bits of an element are kept, under the definition's name.
fn places_of(width: u64) -> u64
    ensures { result ≡ places_of width }
{
    width.min(53)
}

// The deviate of an element, less one half. Both casts are of whole numbers up to 2^53, the quotient is by a power of two, and the
// difference has no more digits than a float: nothing is rounded.
#[tactic(auto, using(crate::proofs::ExactDeviates::kept_fits, crate::proofs::ExactDeviates::whole_fits, crate::proofs::ExactDeviates::machine_made))]
pub fn deviate(x: u64, width: u64) -> f64
    requires { (width ≤ 64) × (x < 2 ^ width) }
    ensures { result ≡ deviate_of width x }
{
    let places = places_of(width);
    let kept = x >> (width - places);
    let whole = 1u64 << places;
    kept as f64 / whole as f64 - 0.5
}

// The deviates of an accepted fix: one jump to the position of the first, and one step to that of the second.
#[tactic(auto, using(crate::proofs::Promises::valid_fix, crate::proofs::Promises::is_element, crate::proofs::Promises::east_shown, crate::proofs::Promises::north_shown, crate::proofs::Promises::shown_below))]
pub fn fix_of(run: Run, fix: u64) -> Fix
    requires { fix_refusal run fix ≡ 0 }
    ensures { result ≡ fix_of run fix }
{
    let g = run.generator;
    let index = run.first + 2 * fix;
    let east = value_of(g, index);
    let north = next_of(g, east);
    Fix {
        east: deviate(east, g.width),
        north: deviate(north, g.width),
    }
}
