// Prints the summary of the archive `archive.csv` of the current folder.
#![tactic(auto)]

use archive_io::input::read_archive;
use runsum_io::output::print_output;

fn main(rt: HostRuntime) {
    let mut bytes = [0u8; 65537];
    let archive = read_archive(&rt, &mut bytes);
    print_output(&mut rt.stdout(), &mut rt.stderr(), archive);
}
