// The text of the summary.
#![tactic(auto)]

pub mod text;
