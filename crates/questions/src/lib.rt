// The question on standard input.
#![tactic(auto)]

pub mod question;
