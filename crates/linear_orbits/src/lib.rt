// Orbit and indices of the linear kind. With an odd multiplier they are read off the searches up the bit places; with an even one
// the sequence comes to rest after at most n steps.
#![tactic(auto)]

pub mod drift;
pub mod indices;
pub mod orbit;
