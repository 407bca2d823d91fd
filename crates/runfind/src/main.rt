// Finds a number in the archive `archive.csv` of the current folder.
use archive_io::input::read_input;
use runfind_io::decision::respond;
use runfind_io::output::print_outcome;

fn main() {
    let mut input = [0u8; 22];
    let reading = read_input(&mut input);
    let n = reading.n;
    let rest = reading.rest;
    let mut bytes = [0u8; 65537];
    let response = respond(&input[..n], rest, &mut bytes);
    let outcome = response.outcome;
    print_outcome(outcome);
}
