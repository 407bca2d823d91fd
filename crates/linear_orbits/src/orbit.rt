// The orbit. `Linear` is asked for by a clause, as in `generator::kinds`.
ghost use Rattle.std.specs.Prelude.{◌≡◌, ◌+◌, ◌%◌, ◌<◌, ◌≤◌};
ghost use Rattle.sequences.specs.Orbit.{IsOrbit, OrbitIs};
ghost use Rattle.generator.specs.Recurrence.{modulus, element};
ghost use Rattle.generator.specs.Linear.{Linear};

use crate::drift::drift_from;
use affine::value_at;
use generator::Generator;
use generator::linear::once;
use search::period::doublings;
use sequences::Orbit;
use words::bits::ones;
use words::{alpha, first_difference};

// The preperiod, for an even multiplier. Neighbours first differ v places higher at each step, v the zeros below the
// multiplier's lowest one bit, until all n places agree. Where they do from the start there is no quotient to wait for.
pub fn preperiod(g: Generator) -> u64
    requires { (Linear g) × (g.multiplier % 2 ≡ 0) }
    ensures { (result ≤ g.width) × IsOrbit (element g) result 1 }
{
    let place = first_difference(value_at(once(g), g.seed), g.seed);
    let left = g.width.saturating_sub(place);
    let v = alpha(g.multiplier);
    if left == 0 {
        return 0;
    }
    left.div_ceil(v)
}

// The orbit, for every multiplier. The period of an odd one is read off how often it doubles up the bit places.
#[tactic(auto, using(crate::proofs::LinearOrbits::even_is, crate::proofs::LinearOrbits::odd_is, crate::proofs::Begins::doublings_orbit))]
pub fn orbit(g: Generator) -> Orbit
    requires { Linear g }
    ensures { OrbitIs (element g) (modulus g) result }
{
    if g.multiplier % 2 == 0 {
        return Orbit {
            preperiod: preperiod(g),
            last: 0,
        };
    }
    let exponent = doublings(drift_from(g, g.seed), g.multiplier, g.width);
    Orbit {
        preperiod: 0,
        last: ones(exponent),
    }
}
