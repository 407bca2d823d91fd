// The lines of runs. `read_line` gives the run whose line some bytes are, `write_line` writes a run's line to a buffer. Both
// take any input and decline what the refusal table says. Neither searches: each looks once at the bytes of one line, of which
// an accepted one has 107 at most.
#![tactic(auto)]

ghost use Rattle.refusals.specs.Replies.{plain_value};
ghost use Rattle.lines.specs.ReadLine.{ReadPromise, plain_run};
ghost use Rattle.lines.specs.WriteLine.{WritePromise};

use fields::line;
use numbers::{line_run, numbers_of};
use refusals::Refusal;
use runs::{Run, checked};

pub mod accepted;
pub mod numbers;
pub mod plain;

// The same in plain numbers, for C: the refusal's number, 0 for none, and the run, all zeros beside a refusal.
#[repr(C)]
#[derive(Clone, Copy)]
pub struct RunReply {
    pub refusal: u64,
    pub run: Run,
}

// The run whose line the bytes are.
pub fn read_line(bytes: &[u8]) -> Result<Run, Refusal>
    ensures { ReadPromise bytes.now (plain_run result) }
{
    let Some(run) = line_run(bytes) else {
        return Err(Refusal::MalformedLine);
    };
    checked(run)?;
    Ok(run)
}

// Writes a run's line from the buffer's first byte on, and gives the number of bytes.
#[tactic(auto, using(crate::proofs::Written::write_refused, crate::proofs::Written::write_short, crate::proofs::Written::write_done), unfolding(crate::specs::WriteLine::write_refusal))]
pub fn write_line(run: Run, buffer: &mut [u8]) -> Result<u64, Refusal>
    ensures { WritePromise run buffer.old buffer.new (plain_value result) }
{
    checked(run)?;
    let numbers = numbers_of(run);
    if buffer.len() < line::length(&numbers) {
        return Err(Refusal::BufferTooShort);
    }
    Ok(line::write(buffer, &numbers) as u64)
}
