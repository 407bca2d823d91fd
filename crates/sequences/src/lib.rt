// Types of what is known of a sequence, for the crates above: see specs/ and proofs/.
#![tactic(auto)]

ghost use Rattle.std.specs.Prelude.{◌≡◌};
ghost use Rattle.sequences.specs.Occurrences.{least_of};

// The orbit: its preperiod, and its period less 1, so that 2^64 fits.
#[derive(Clone, Copy)]
pub struct Orbit {
    pub preperiod: u64,
    pub last: u64,
}

// The indices at which a number is yielded: one only; one and every period further, with the period less 1; none.
#[derive(Clone, Copy)]
pub enum Indices {
    Once(u64),
    Every { index: u64, last: u64 },
    Never,
}

impl Indices {
    // The least of them, if there is one.
    pub fn least(self) -> Option<u64>
        ensures { result ≡ least_of self }
    {
        match self {
            Indices::Once(index) | Indices::Every { index, .. } => Some(index),
            Indices::Never => None,
        }
    }
}
