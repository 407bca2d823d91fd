// Reading standard input and the file, and printing.
#![tactic(auto)]

pub mod input;
pub mod output;
