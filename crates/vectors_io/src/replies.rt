// Replies and their lines, written into a lent room from a place on: there is no heap.
ghost use Rattle.std.specs.Prelude.{◌≡◌, ◌+◌, ◌*◌, ◌≤◌, ◌<◌, length};

use fields::line;

// Writes the line of a reply at `at`, `?` if there is none, and gives the place behind it.
pub fn write<const M: usize>(out: &mut [u8], at: usize, reply: Option<[u64; M]>) -> usize
    requires room { at + 357 ≤ length out.old }
    requires few { M ≤ 17 }
    ensures { result ≤ at + 357 }
{
    match reply {
        Some(numbers) => write_numbers(out, at, &numbers),
        None => write_question(out, at),
    }
}

// Writes `?` and byte 10.
pub fn write_question(out: &mut [u8], at: usize) -> usize
    requires { at + 1 < length out.old }
    ensures { result ≡ at + 2 }
{
    out[at] = b'?';
    out[at + 1] = b'\n';
    at + 2
}

// Writes numbers as a line. A field has 21 bytes at most.
fn write_numbers(out: &mut [u8], at: usize, numbers: &[u64]) -> usize
    requires { at + 21 * length numbers.now ≤ length out.old }
    ensures { result ≤ at + 21 * length numbers.now }
{
    at + line::write(&mut out[at..], numbers)
}
