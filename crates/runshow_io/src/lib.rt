// What the program `runshow` prints, by what it reads.
#![tactic(auto)]

pub mod response;
