// Steps between two indices of a sequence that goes round, whatever its period. `last` is the period less 1, a number and no type:
// docs/DECISIONS.md names `ahead` with it.
ghost use Rattle.std.specs.Prelude.{◌≡◌, suc, ◌≤◌};
ghost use Rattle.sequences.specs.Gap.{Ahead, signed_of};

// How many steps ahead of index i index j is, round a period of last + 1.
pub fn ahead(i: u64, j: u64, last: u64) -> u64
    requires { (i ≤ last) × (j ≤ last) }
    ensures { Ahead (suc last) i j result }
{
    if i <= j {
        return j - i;
    }
    last - (i - j) + 1
}

// d steps ahead as the signed count: as many in the first half of the period of last + 1, else back what is left of it. The
// way taken is never longer than half the period, so that either fits.
pub fn signed(d: u64, last: u64) -> i64
    requires { d ≤ last }
    ensures { result ≡ signed_of (suc last) d }
{
    let half = last / 2 + 1;
    if d < half {
        return d as i64;
    }
    -1 - ((last - d) as i64)
}
