// The period of a sequence in its low bit places: the search for the first element itself, of which only the period is left.
ghost use Rattle.search.specs.Settling.{Doubling};

use words::{alpha, wrapping_mul};

// The exponent of the period in `limit` places. With m places settled it is e; a period multiplies what an element is above the
// first by `factor` and adds `drift`. At place m the period doubles exactly when α of the drift is m. The loop is fastest with
// the square before the next drift. By `settle`, with its choices, it took 1.6 to 2.0 of the time (docs/PERFORMANCE.md).
pub fn doublings(mut drift: u64, mut factor: u64, limit: u64) -> u64
    ensures { Doubling drift factor limit result }
{
    let mut e: u64 = 0;
    for place in 0..limit {
        let returning = alpha(drift);
        if returning == place {
            let square = wrapping_mul(factor, factor);
            drift = wrapping_mul(factor.wrapping_add(1), drift);
            factor = square;
            e += 1;
        }
    }
    e
}
