// Places on a circle of last + 1 places, whatever their number: the period may be 2^64, which no word holds. `last` is
// a number and no type, as in `gaps::turns`.
ghost use Rattle.std.specs.Prelude.{◌≡◌, suc, ◌+◌, ◌-◌, ◌≤◌, min};
ghost use Rattle.words.specs.Congruence.{Congruent};
ghost use Rattle.sequences.specs.Common.{arcs_share};

// The place of an index.
pub fn place(index: u64, last: u64) -> u64
    ensures { (result ≤ last) × Congruent (suc last) result index }
{
    if index <= last {
        return index;
    }
    index % (last + 1)
}

// How many places that many in a row have: once round they come again. A name for one expression, as the definition speaks of it.
fn places(count: u64, last: u64) -> u64
    ensures { result ≡ min count (suc last) }
{
    count.min(last.saturating_add(1))
}

// How many of that many places from d on lie past the end.
fn past_end(count: u64, d: u64, last: u64) -> u64
    requires { d ≤ last }
    ensures { result ≡ d + count - suc last }
{
    count.saturating_sub(last - d).saturating_sub(1)
}

// How many places two arcs share, one of so many places from 0 on, the other from d on: those that the second has behind d,
// and those that it has past the end, at the first places.
pub fn common_places(first: u64, second: u64, d: u64, last: u64) -> u64
    requires { d ≤ last }
    ensures { result ≡ arcs_share (suc last) first d second }
{
    let one = places(first, last);
    let other = places(second, last);
    let past = past_end(other, d, last);
    if one <= d {
        return one.min(past);
    }
    let behind = (one - d).min(other);
    past + behind
}
