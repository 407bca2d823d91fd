// The calls, each on its numbers.
ghost use Rattle.std.specs.Prelude.{◌+◌, ◌≤◌, length};

use crate::numbers::read_bytes;
use crate::replies::{write, write_question};
use crate::{archives, players};
use fixes::FixReply;
use gaps::GapReply;
use generator::Generator;
use lines::RunReply;
use low_places::PlacesReply;
use orbits::{IndexReply, OrbitReply};
use refusals::{Refusal, ValueReply};
use runs::Run;

// Writes the reply to a call at `at`, `?` where it has too few or too many numbers, and gives the place behind it. A
// match and no table, since the functions have different types.
pub fn reply(letter: u8, n: &[u64], out: &mut [u8], at: usize) -> usize
    requires { at + 357 ≤ length out.old }
    ensures { result ≤ at + 357 }
{
    match letter {
        b'B' => write(out, at, taken(n).and_then(index_places)),
        b'C' => write(out, at, taken(n).and_then(customary_multiplier)),
        b'D' => write(out, at, taken(n).and_then(fix_at)),
        b'E' => write(out, at, taken(n).and_then(element)),
        b'F' => write(out, at, archives::lookup(n)),
        b'G' => write(out, at, taken(n).and_then(gap)),
        b'H' => write(out, at, taken(n).and_then(shared)),
        b'I' => write(out, at, taken(n).and_then(index)),
        b'J' => write(out, at, taken(n).and_then(lane)),
        b'K' => write(out, at, players::reply(n)),
        b'L' => write(out, at, archives::line(n)),
        b'M' => write(out, at, taken(n).and_then(remake)),
        b'O' => write(out, at, taken(n).and_then(orbit)),
        b'P' => write(out, at, taken(n).and_then(predecessor)),
        b'R' => write(out, at, read_line(n)),
        b'S' => write(out, at, archives::summary(n)),
        b'T' => write(out, at, taken(n).and_then(write_lane)),
        b'V' => write(out, at, taken(n).and_then(variety)),
        b'W' => write(out, at, taken(n).and_then(write_line)),
        _ => write_question(out, at),
    }
}

// The numbers of a call, if they are as many as it takes.
fn taken<const N: usize>(n: &[u64]) -> Option<[u64; N]> {
    n.try_into().ok()
}

fn customary_multiplier([width]: [u64; 1]) -> Option<[u64; 2]> {
    Some(of_one(customary::customary_multiplier(width)))
}

fn element(n: [u64; 5]) -> Option<[u64; 2]> {
    Some(of_one(generator::element(generator_of(&n), n[4])))
}

// The second and the third number are the bits of the floats.
fn fix_at(n: [u64; 7]) -> Option<[u64; 3]> {
    let r = FixReply::from(fixes::fix_at(run_of(&n), n[6]));
    let fix = r.fix;
    Some([r.refusal, f64::to_bits(fix.east), f64::to_bits(fix.north)])
}

// The third number is 1 where the steps go back, the fourth how many there are.
fn gap(n: [u64; 6]) -> Option<[u64; 4]> {
    let r = GapReply::from(gaps::gap(generator_of(&n), n[4], n[5]));
    let steps = r.steps;
    Some([
        r.refusal,
        r.found,
        u64::from(steps < 0),
        steps.unsigned_abs(),
    ])
}

fn index(n: [u64; 5]) -> Option<[u64; 3]> {
    let r = IndexReply::from(orbits::index(generator_of(&n), n[4]));
    Some([r.refusal, r.found, r.index])
}

fn index_places(n: [u64; 6]) -> Option<[u64; 5]> {
    let r = PlacesReply::from(low_places::index_places(generator_of(&n), n[4], n[5]));
    Some([r.refusal, r.found, r.index, r.recurs, r.exponent])
}

fn lane(n: [u64; 8]) -> Option<[u64; 7]> {
    Some(of_line(lanes::lane(run_of(&n), n[6], n[7])))
}

fn orbit(n: [u64; 4]) -> Option<[u64; 4]> {
    let r = OrbitReply::from(orbits::orbit(generator_of(&n)));
    Some([r.refusal, r.preperiod, r.exponent, r.period])
}

fn predecessor(n: [u64; 5]) -> Option<[u64; 2]> {
    Some(of_one(predecessors::predecessor(generator_of(&n), n[4])))
}

fn read_line(n: &[u64]) -> Option<[u64; 7]> {
    let mut buffer = [0u8; 256];
    let bytes = read_bytes(n, &mut buffer)?;
    Some(of_line(lines::read_line(bytes)))
}

// The last number is how many of a buffer's five numbers are lent; all five stand in the reply.
fn remake(n: [u64; 8]) -> Option<[u64; 7]> {
    let mut values = [1u64, 2, 3, 4, 5];
    let lent = values.get_mut(..n[7] as usize)?;
    let r = ValueReply::from(remake::remake(run_of(&n), n[6], lent));
    let [a, b, c, d, e] = values;
    Some([r.refusal, r.value, a, b, c, d, e])
}

fn shared(n: [u64; 12]) -> Option<[u64; 2]> {
    Some(of_one(shared::shared(run_of(&n), run_of(&n[6..]))))
}

fn variety(n: [u64; 6]) -> Option<[u64; 2]> {
    Some(of_one(variety::variety(run_of(&n))))
}

// The last number is the buffer's length.
fn write_line(n: [u64; 7]) -> Option<[u64; 2]> {
    let mut buffer = [0u8; 256];
    let room = buffer.get_mut(..n[6] as usize)?;
    Some(of_one(lines::write_line(run_of(&n), room)))
}

// The last number is the buffer's length.
fn write_lane(n: [u64; 9]) -> Option<[u64; 2]> {
    let mut buffer = [0u8; 256];
    let room = buffer.get_mut(..n[8] as usize)?;
    Some(of_one(lanes::write_lane(run_of(&n), n[6], n[7], room)))
}

// The generator of the first four numbers, by their names here: a vector is spelled out, and not by what is tested.
fn generator_of(n: &[u64]) -> Generator
    requires { 4 ≤ length n.now }
{
    Generator {
        width: n[0],
        multiplier: n[1],
        increment: n[2],
        seed: n[3],
    }
}

// The run of the first six numbers.
pub fn run_of(n: &[u64]) -> Run
    requires { 6 ≤ length n.now }
{
    Run {
        generator: generator_of(n),
        first: n[4],
        count: n[5],
    }
}

fn of_one(answer: Result<u64, Refusal>) -> [u64; 2] {
    let r = ValueReply::from(answer);
    [r.refusal, r.value]
}

// The run's six numbers stand behind the refusal.
fn of_line(answer: Result<Run, Refusal>) -> [u64; 7] {
    let r = RunReply::from(answer);
    let run = r.run;
    let g = run.generator;
    [
        r.refusal,
        g.width,
        g.multiplier,
        g.increment,
        g.seed,
        run.first,
        run.count,
    ]
}
