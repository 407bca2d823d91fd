// Shows the numbers of a run in the archive `archive.csv` of the current folder.
#![tactic(auto)]

use archive_io::input::read_input;
use runshow_io::response::respond;
use runshow_output::output::print_outcome;

fn main(rt: HostRuntime) {
    let mut question = [0u8; 64];
    let input = read_input(&rt, &mut question);
    let mut archive = [0u8; 65537];
    let response = respond(&rt, input, &mut archive);
    print_outcome(&mut rt.stdout(), &mut rt.stderr(), response.outcome);
}
