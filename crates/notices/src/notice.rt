// What a program tells where it has nothing to show. Each function that writes does so from the first byte of the buffer on
// and answers how many bytes it wrote: there is no heap.
ghost use Rattle.std.specs.Prelude.{[], ◌∷◌, ◌≤◌, length};
ghost use Rattle.fields.specs.Line.{fields_line};
ghost use Rattle.fields.specs.Codec.{FrontWritten};
ghost use Rattle.notices.specs.Notice.{notice_line, refused_line};

use fields::line;

#[derive(Clone, Copy)]
pub enum Notice {
    NotFound,
    // The number of a refusal and that of a line. No `Refusal`: `write_notice` and the programs' `print_outcome` write any number.
    Refused(u64, u64),
    BadQuestion,
    Unread,
}

pub fn write_notice(buf: &mut [u8], notice: Notice) -> usize
    requires { 64 ≤ length buf.old }
    ensures { FrontWritten (notice_line notice) buf.old buf.new result }
{
    match notice {
        Notice::NotFound => write_word(buf, b"none\n"),
        Notice::Refused(number, line) => write_refused(buf, number, line),
        Notice::BadQuestion => write_word(buf, b"question\n"),
        Notice::Unread => write_word(buf, b"unread\n"),
    }
}

fn write_refused(buf: &mut [u8], number: u64, line: u64) -> usize
    requires { 50 ≤ length buf.old }
    ensures { FrontWritten (refused_line number line) buf.old buf.new result }
{
    let n = write_word(buf, b"refused,");
    n + write_pair(&mut buf[n..], number, line)
}

// Writes the line of two numbers.
#[tactic(auto, using(crate::proofs::Words::pair_short))]
pub fn write_pair(buf: &mut [u8], first: u64, second: u64) -> usize
    requires { 42 ≤ length buf.old }
    ensures { FrontWritten (fields_line (first ∷ second ∷ [])) buf.old buf.new result }
{
    line::write(buf, &[first, second])
}

pub fn write_word(buf: &mut [u8], word: &[u8]) -> usize
    requires { length word.now ≤ length buf.old }
    ensures { FrontWritten word.now buf.old buf.new result }
{
    buf[..word.len()].copy_from_slice(word);
    word.len()
}
