// The parts of an archive, each up to its byte 10: where they stand, and the runs in them, one after the other.
ghost use Rattle.std.specs.Prelude.{◌≡◌, ◌+◌, ◌<◌, ◌≤◌, ◌==◌, length, drop, position};
ghost use Rattle.lines.specs.ReadLine.{read_of};
ghost use Rattle.std.specs.Iterator.{YieldsFirst, item_count};
ghost use Rattle.archive.specs.Archive.{lines_of, runs_in};
ghost use Rattle.archive.specs.Check.{check_of};
ghost use Rattle.archive.specs.Parts.{first_part, places_left, AllRead, LineRun};

use lines::accepted::accepted_run;
use runs::Run;

// Where a part stands.
#[derive(Clone, Copy)]
pub struct Place {
    pub start: usize,
    pub end: usize,
}

// A run, and where its line ends.
#[derive(Clone, Copy)]
pub struct NextRun {
    pub run: Run,
    pub end: usize,
}

// Where the first byte 10 stands.
fn delimiter_in(bytes: &[u8]) -> Option<usize>
    ensures { result ≡ position (λ b. b == 10) bytes.now }
{
    bytes.iter().position(|b| *b == 10)
}

// How long the first part is: up to its byte 10, or all bytes.
#[tactic(auto, using(crate::proofs::Splitting::part_ends_at, crate::proofs::Splitting::part_open, crate::proofs::Splitting::part_length))]
fn part_len(bytes: &[u8]) -> usize
    ensures is { result ≡ length (first_part bytes.now) }
    ensures bound { result ≤ length bytes.now }
{
    delimiter_in(bytes).map_or(bytes.len(), |i| i + 1)
}

// Where the part that starts at `at` ends.
pub fn part_end(bytes: &[u8], at: usize) -> usize
    requires { at < length bytes.now }
    ensures { result ≡ at + length (first_part (drop at bytes.now)) }
{
    at + part_len(&bytes[at..])
}

// The run of the part that starts at `at`, which is an accepted line.
pub fn next_run(archive: &[u8], at: usize) -> NextRun
    requires at_in_bounds { at < length archive.now }
    requires archive_value { (read_of (first_part (drop at archive.now))).refusal ≡ 0 }
    ensures { LineRun archive.now at result }
{
    let end = part_end(archive, at);
    NextRun {
        run: accepted_run(&archive[at..end]),
        end,
    }
}

// Gives the place of each part, from the one that starts at `at` on.
#[derive(Drop)]
pub struct Places<'a> {
    bytes: &'a [u8],
    at: usize,
}

impl<'a> Iterator for Places<'a> {
    type Item = Place;

    ghost next_gives = { YieldsFirst (λ s. places_left s.bytes.now s.at) };

    ghost remaining = { item_count (λ s. places_left s.bytes.now s.at) };

    fn next(&mut self) -> Option<Place> {
        let start = self.at;
        if start >= self.bytes.len() {
            return None;
        }
        let end = part_end(self.bytes, start);
        self.at = end;
        Some(Place { start, end })
    }
}

// The places of the parts of any bytes.
pub fn places_of<'a>(bytes: &'a [u8]) -> Places<'a>
    ensures bytes { result.bytes.now ≡ bytes.now }
    ensures at { result.at ≡ 0 }
{
    Places { bytes, at: 0 }
}

// Gives the run of each line of the rest, of which none is refused.
#[derive(Drop)]
pub struct Runs<'a> {
    rest: &'a [u8],
}

impl<'a> Iterator for Runs<'a> {
    type Item = Run;

    ghost can_next = { λ s. AllRead (lines_of s.rest.now) };

    ghost next_gives = { YieldsFirst (λ s. runs_in s.rest.now) };

    ghost remaining = { item_count (λ s. runs_in s.rest.now) };

    fn next(&mut self) -> Option<Run> {
        if self.rest.is_empty() {
            return None;
        }
        let next = next_run(self.rest, 0);
        self.rest = self.rest.split_at(next.end).1;
        Some(next.run)
    }
}

// The runs of an accepted archive, none of which is checked again.
// That the archive is accepted is a clause and no type, as for a generator in `generator::kinds`.
#[tactic(auto, using(crate::proofs::Walking::all_read))]
pub fn runs_of<'a>(archive: &'a [u8]) -> Runs<'a>
    requires { (check_of archive.now).refusal ≡ 0 }
    ensures rest { result.rest.now ≡ archive.now }
    ensures read { AllRead (lines_of archive.now) }
{
    Runs { rest: archive }
}
