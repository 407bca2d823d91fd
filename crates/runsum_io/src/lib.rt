// What the program `runsum` prints.
#![tactic(auto)]

pub mod output;
