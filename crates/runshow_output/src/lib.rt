// What the program `runshow` writes.
#![tactic(auto)]

pub mod output;
