// What the program `runfind` writes.
#![tactic(auto)]

pub mod output;
