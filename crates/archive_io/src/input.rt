// Reading standard input and the archive. No contract can say which bytes a read brings, so these
// functions only fill a buffer and tell which bytes of it were read and what may follow them. What
// they tell is made of what the last read gave, and goes with it wherever it goes.
ghost use Rattle.std.specs.Prelude.{IfSome, MatchOption, ◌≢◌, ◌≡◌, ◌+◌, ◌-◌, ◌^◌, ◌<◌, ◌≤◌, length, take};
ghost use Rattle.archive_io.specs.declared.input.Rest.TheVariants.{Failed};
ghost use Rattle.archive_io.specs.Input.{After, Enough, GoesOn, given, reading_after};

use std::io::Read;
use std::rt::Files;
use std::{fs, io};

// What follows the bytes read: nothing, since the input ended; perhaps more; or the read failed.
#[derive(Clone, Copy, PartialEq, Eq)]
pub enum Rest {
    Nothing,
    Unknown,
    Failed,
}

// How many bytes at the start of the buffer were read, and what follows them.
#[derive(Clone, Copy)]
struct Reading {
    n: usize,
    rest: Rest,
}

// The last read: how many bytes stood in the buffer before it, how many it gave, or none if it failed, and the reading after it.
#[derive(Clone, Copy)]
struct LastRead {
    before: usize,
    got: Option<usize>,
    reading: Reading,
}

// How many bytes at the start of a buffer were read, what follows them, and how many there was room for: all that is said of a
// buffer that was lent. It is what the last read gave, which is private, so that no other crate can make one up; where more may
// follow, the buffer is full.
#[derive(Clone, Copy)]
pub struct Filled {
    pub n: usize,
    pub rest: Rest,
    pub room: usize,
    last: LastRead,
    ghost after: { After room last },
    ghost reading: { last.reading ≡ record { n = n; rest = rest } },
    ghost within: { n ≤ room },
    ghost full: { Enough room n rest },
}

// What was read of an input: the bytes, what follows them, and how many there was room for, as `Filled` has them.
// `rest` is no flag beside the bytes: what was read before a read failed is spoken of too (`ReadOf`).
#[derive(Clone, Copy)]
pub struct Input<'a> {
    pub bytes: &'a [u8],
    pub rest: Rest,
    pub room: usize,
    last: LastRead,
    ghost after: { After room last },
    ghost reading: { last.reading ≡ record { n = length bytes.now; rest = rest } },
    ghost within: { length bytes.now ≤ room },
    ghost full: { Enough room (length bytes.now) rest },
}

impl<'a> Input<'a> {
    // The bytes at the start of a buffer of that size, of which so much was read.
    pub fn of(buf: &'a [u8], filled: Filled) -> Input<'a>
        requires { filled.room ≡ length buf.now }
        ensures bytes { result.bytes.now ≡ take filled.n buf.now }
        ensures rest { result.rest ≡ filled.rest }
        ensures room { result.room ≡ filled.room }
    {
        Input {
            bytes: &buf[..filled.n],
            rest: filled.rest,
            room: filled.room,
            last: filled.last,
        }
    }

    // The bytes, if no read failed.
    pub fn readable(self) -> Option<&'a [u8]>
        ensures { MatchOption result (self.entry.rest ≡ Failed) (λ bytes. (bytes.now ≡ self.entry.bytes.now) × (self.entry.rest ≢ Failed)) }
    {
        match self.rest {
            Rest::Failed => None,
            Rest::Nothing | Rest::Unknown => Some(self.bytes),
        }
    }
}

// Reads standard input.
pub fn read_input<'a>(rt: &impl io::Input, buf: &'a mut [u8]) -> Input<'a>
    requires { 0 < length buf.old }
    ensures { result.room ≡ length buf.old }
{
    let filled = fill_input(rt, buf);
    Input::of(buf, filled)
}

// The same, for those who have the buffer back, and no loan of it goes on.
pub fn fill_input(rt: &impl io::Input, buf: &mut [u8]) -> Filled
    requires { 0 < length buf.old }
    ensures { result.room ≡ length buf.new }
{
    let mut input = rt.reader();
    read_to_end(&mut input, buf)
}

// Reads the archive, and closes it.
pub fn read_archive<'a>(rt: &impl Files, buf: &'a mut [u8]) -> Input<'a>
    requires { 0 < length buf.old }
    ensures { result.room ≡ length buf.old }
{
    let filled = fill_archive(rt, buf);
    Input::of(buf, filled)
}

// The same, for those who have the buffer back and promise something of it.
pub fn fill_archive(rt: &impl Files, buf: &mut [u8]) -> Filled
    requires { 0 < length buf.old }
    ensures { result.room ≡ length buf.new }
{
    match fs::open(rt, "archive.csv") {
        Ok(mut file) => read_to_end(&mut file, buf),
        Err(_) => not_read(buf),
    }
}

// Nothing could be read into the buffer, or nothing was: as after a first read that failed.
pub fn not_read(buf: &[u8]) -> Filled
    ensures { result.room ≡ length buf.now }
{
    let reading = reading_after(0, None, buf.len());
    Filled {
        n: reading.n,
        rest: reading.rest,
        room: buf.len(),
        last: LastRead {
            before: 0,
            got: None,
            reading,
        },
    }
}

// Reads until the buffer is full, the input ends or a read fails. The input may come in pieces.
// std's own takes a Vec, and there is no heap.
fn read_to_end<R: Read>(source: &mut R, buf: &mut [u8]) -> Filled
    requires { 0 < length buf.old }
    ensures { result.room ≡ length buf.new }
{
    let mut before = 0;
    loop {
        let last = read_more(source, buf, before);
        let Reading { n, rest } = last.reading;
        if !goes_on(last.reading, buf.len()) {
            return Filled {
                n,
                rest,
                room: buf.len(),
                last,
            };
        }
        before = n;
    }
}

// Whether to read on: something may follow, and there is room for it.
fn goes_on(reading: Reading, size: usize) -> bool
    ensures { GoesOn size reading result }
{
    reading.rest == Rest::Unknown && reading.n < size
}

// One read behind the first bytes of the buffer. A read that a signal interrupts would count as failed, but
// the program handles no signal, so none is interrupted.
fn read_more<R: Read>(source: &mut R, buf: &mut [u8], before: usize) -> LastRead
    requires { before < length buf.old }
    ensures { (result.before ≡ before) × After (length buf.new) result }
{
    let got = given(source.read(&mut buf[before..]));
    LastRead {
        before,
        got,
        reading: reading_after(before, got, buf.len() - before),
    }
}

// What a read gave: how many bytes, or none if it failed.
fn given(read: io::Result<usize>) -> Option<usize>
    ensures { result ≡ given read }
{
    read.ok()
}

// The reading after a read that gave so much, behind so many bytes and into so much room.
fn reading_after(before: usize, got: Option<usize>, room: usize) -> Reading
    requires end_bound { before + room < 2 ^ 64 }
    requires got_bound { IfSome got (λ n. n ≤ room) }
    ensures { result ≡ reading_after before got room }
{
    match got {
        Some(0) => Reading {
            n: before,
            rest: Rest::Nothing,
        },
        Some(n) => Reading {
            n: before + n,
            rest: Rest::Unknown,
        },
        None => Reading {
            n: before,
            rest: Rest::Failed,
        },
    }
}
