// What two runs share that are known to be accepted.
ghost use Rattle.std.specs.Prelude.{◌≡◌};
ghost use Rattle.shared.specs.Shared.{shared_refusal, shared_of};

use crate::circle::{common_places, place};
use gaps::turns::ahead;
use orbits::kinds::indices_of;
use runs::Run;
use sequences::Indices;

// The second seed's index among the first generator's elements tells how far ahead the second run starts on the circle that
// both go round; where it has none they are on different circles.
#[tactic(auto, using(crate::proofs::Shares::first_accepted, crate::proofs::Shares::shared_nothing, crate::proofs::Shares::index_within))]
pub fn shared_of(first: Run, second: Run) -> u64
    requires { shared_refusal first second ≡ 0 }
    ensures { result ≡ shared_of first second }
{
    let Indices::Every { index, last } = indices_of(first.generator, second.generator.seed) else {
        return 0;
    };
    let start = place(first.first, last);
    let other = place(second.first, last);
    let behind = ahead(other, start, last);
    let d = ahead(behind, index, last);
    common_places(first.count, second.count, d, last)
}
