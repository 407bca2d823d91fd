// Searches up the bit places of a sequence, over plain numbers: one round a place, at most `limit` of them.
#![tactic(auto)]

ghost use Rattle.search.specs.Settling.{Settling};

use std::hint::select_unpredictable;
use words::{alpha, wrapping_mul};

pub mod period;

// How many places were settled; the least index that agrees in them, and the exponent of the period in them.
// `places` is no flag beside a value: a search that stops early has settled that many, and of the rest `Settling` speaks then too.
#[derive(Clone, Copy)]
pub struct Settled {
    pub places: u64,
    pub index: u64,
    pub exponent: u64,
}

// Goes up at most `limit` bit places, as long as an element agrees with the number sought in them. With m places settled k is
// the least index whose element agrees in them, `away` what that element is above the number, `differs` α of it, and `period` the
// period in them modulo 2^64, whose α is its exponent. A period multiplies what an element is above the number by `factor` and
// adds `drift`. At place m the period doubles exactly when α of the drift is m, and the element at k differs exactly when α of
// `away` is: if the period stays and it differs, no index agrees there. The loop is fastest with the square before the next
// drift, and with three choices: one `if` for them would be a branch over the products.
pub fn settle(mut away: u64, mut drift: u64, mut factor: u64, limit: u64) -> Settled
    ensures { Settling away drift factor limit result }
{
    let mut differs = alpha(away);
    let mut k: u64 = 0;
    let mut period: u64 = 1;
    for place in 0..limit {
        let returning = alpha(drift);
        if returning == place {
            let apart = differs == place;
            let moved = wrapping_mul(factor, away).wrapping_add(drift);
            let beyond = alpha(moved);
            let ahead = k.wrapping_add(period);
            let square = wrapping_mul(factor, factor);
            drift = wrapping_mul(factor.wrapping_add(1), drift);
            factor = square;
            period = period.wrapping_add(period);
            differs = select_unpredictable(apart, beyond, differs);
            k = select_unpredictable(apart, ahead, k);
            away = select_unpredictable(apart, moved, away);
        } else if differs == place {
            return Settled {
                places: place,
                index: k,
                exponent: alpha(period),
            };
        }
    }
    Settled {
        places: limit,
        index: k,
        exponent: alpha(period),
    }
}
