// What a program tells where it has nothing to show.
#![tactic(auto)]

pub mod notice;
