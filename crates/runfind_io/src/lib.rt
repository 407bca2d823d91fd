// What the program `runfind` prints, by what it reads.
#![tactic(auto)]

pub mod response;
