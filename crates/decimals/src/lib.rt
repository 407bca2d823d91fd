// A field: a decimal number and the delimiter behind it, read and written.
#![tactic(auto)]

pub mod field;
