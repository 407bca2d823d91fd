// An accepted lane as a run; that it is accepted is asked for, by a clause as in `generator::kinds`.
ghost use Rattle.std.specs.Prelude.{◌≡◌, ◌<◌};
ghost use Rattle.affine.specs.Affine.{Walks};
ghost use Rattle.generator.specs.Linear.{Linear};
ghost use Rattle.lanes.specs.Rule.{rule_of};
ghost use Rattle.lanes.specs.Lane.{lane_count, lane_refusal, lane_of};

use affine::{Affine, compose, jump};
use generator::Generator;
use generator::linear::element_at;
use runs::Run;
use words::bits::low_bits;

// Of how many steps the map is made by a jump: of k, but that 16, the one number of lanes that has five bits, is twice 8. The jump makes
// four rounds at a time.
fn jumped(k: u64) -> u64
    ensures { ((k ≡ 16) → (result ≡ 8)) × (((k ≡ 16) → ⊥) → (result ≡ k)) }
{
    if k == 16 { 8 } else { k }
}

// The map of k steps of "times a, plus c", two numbers as `jump` takes them.
fn map_of(a: u64, c: u64, k: u64) -> Affine
    ensures { Walks a c k result }
{
    let map = jump(a, c, jumped(k));
    if k == 16 {
        return compose(map, map);
    }
    map
}

// The rule of k steps: their map, of which the low bits matter.
#[tactic(auto, using(crate::proofs::Rules::rule_is))]
fn rule_of(g: Generator, k: u64) -> Affine
    requires { Linear g }
    ensures { result ≡ rule_of g k }
{
    let map = map_of(g.multiplier, g.increment, k);
    let factor = low_bits(map.factor, g.width);
    let offset = low_bits(map.offset, g.width);
    Affine { factor, offset }
}

// How many of the positions below the count fall to lane j of k: j itself, and one for each k positions behind it.
#[tactic(auto, using(crate::proofs::Counting::count_quotient))]
fn count_of(count: u64, k: u64, j: u64) -> u64
    requires { (j < k) × (j < count) }
    ensures { result ≡ lane_count k count j }
{
    (count - 1 - j) / k + 1
}

// The lane itself.
#[tactic(auto, using(crate::proofs::Conditions::valid_lane))]
pub fn lane_of(run: Run, lanes: u64, lane: u64) -> Run
    requires { lane_refusal run lanes lane ≡ 0 }
    ensures { result ≡ lane_of run lanes lane }
{
    let g = run.generator;
    let index = run.first + lane;
    let seed = element_at(g, index);
    let rule = rule_of(g, lanes);
    Run {
        generator: Generator {
            multiplier: rule.factor,
            increment: rule.offset,
            seed,
            ..g
        },
        first: 0,
        count: count_of(run.count, lanes, lane),
    }
}
