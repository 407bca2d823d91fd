// Answers stored calls. Each line of standard input is a call: its letter, and behind each comma a
// number. Standard output has the reply to each, its numbers separated by commas, or `?` where the
// line is no call.
#![tactic(auto)]

ghost use Rattle.std.specs.Prelude.{◌+◌, ◌≤◌, length};

use archive::parts::{Place, places_of};
use archive_io::input::read_input;
use std::io;
use std::io::{Input, Print, Write};

mod archives;
mod calls;
mod numbers;
mod players;
mod replies;

pub fn run(rt: &(impl Input + Print)) {
    let mut input = [0u8; 1600000];
    answer_input(rt, &mut input);
}

// Reads the input and answers it; one that fills the space may not have been read to its end. As `&mut [u8; 1600000]` the
// space has its length without a proof.
fn answer_input(rt: &(impl Input + Print), space: &mut [u8; 1600000]) {
    let input = read_input(rt, space).bytes;
    let mut output = io::writer(rt);
    if input.len() == 1600000 {
        let _ = output.write_all(b"the input is too long\n");
        return;
    }
    answer_all(&mut output, input);
}

// Writes the reply to each line. There is no heap: the replies gather in a fixed room.
fn answer_all<W: Write>(output: &mut W, input: &[u8]) {
    let mut out = [0u8; 65536];
    let mut filled = 0;
    for Place { start, end } in places_of(input) {
        filled = answer(&input[start..end], &mut out, filled);
        if 65000 < filled {
            let _ = output.write_all(&out[..filled]);
            filled = 0;
        }
    }
    let _ = output.write_all(&out[..filled]);
}

// Writes the reply to the call that a line is at `at`, and gives the place behind it.
fn answer(line: &[u8], out: &mut [u8], at: usize) -> usize
    requires { at + 357 ≤ length out.old }
    ensures { result ≤ at + 357 }
{
    let mut given = [0u64; 256];
    let call = call_of(line, &mut given);
    match call {
        Some((letter, numbers)) => calls::reply(letter, numbers, out, at),
        None => replies::write_question(out, at),
    }
}

// The letter of a call and its numbers, read into a buffer, if the line is one.
fn call_of<'a>(line: &[u8], numbers: &'a mut [u64]) -> Option<(u8, &'a [u64])> {
    let (&[letter, mark], list) = line.split_first_chunk::<2>()?;
    if mark != b',' {
        return None;
    }
    Some((letter, numbers::read(list, numbers)?))
}
