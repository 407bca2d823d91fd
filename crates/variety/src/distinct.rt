// How many different values some elements of a sequence have, read off its orbit.
ghost use Rattle.std.specs.Prelude.{◌≡◌, suc, ◌+◌, ◌-◌, min};

use sequences::Orbit;

// How many different values `count` elements from index `first` on have: the smaller of the count and the sum of the period
// and what is left of the preperiod. The sum need not fit a word; it stops at 2^64 - 1, above which no count is.
pub fn distinct_values(orbit: Orbit, first: u64, count: u64) -> u64
    ensures { result ≡ min count (orbit.preperiod - first + suc orbit.last) }
{
    let left = orbit.preperiod.saturating_sub(first);
    count.min(left.saturating_add(orbit.last).saturating_add(1))
}
