// Parts of some bytes in chains, one for each slot, and the slot of some numbers, by a hash. `seen_before` compares a part with
// those of its slot only, from the newest on: a chain has no more links than there are parts before it.
#![tactic(auto)]

pub mod chains;
pub mod hash;
