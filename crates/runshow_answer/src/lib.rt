// What the program `runshow` answers, by the bytes that were read.
#![tactic(auto)]

pub mod answer;
pub mod decision;
