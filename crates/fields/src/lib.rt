// A line of decimal numbers with a delimiter behind each. `read` tells whether any bytes are a line of so many numbers, and
// `read_array` answers the numbers; `write` writes one and `length` tells how long it is, of at most 65,536 numbers. Each goes
// once over the numbers and their bytes.
#![tactic(auto)]

pub mod line;
