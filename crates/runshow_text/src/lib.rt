// The numbers of a part of one run as text.
#![tactic(auto)]

pub mod text;
