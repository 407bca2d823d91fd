// The map "times A, plus B", modulo 2^64, and the map of i steps of it, made from the lowest bit of i up.
#![tactic(auto)]

ghost use Rattle.std.specs.Prelude.{◌≡◌, ◌%◌, ◌^◌};
ghost use Rattle.affine.specs.Affine.{Composes, apply};
ghost use Rattle.affine.specs.Trace.{Jumps, OneRound, Onward, Performed, Rounded, progress_of, selected_of};

use std::hint::select_unpredictable;
use words::wrapping_mul;

// The map "times factor, plus offset", modulo 2^64.
#[derive(Clone, Copy)]
pub struct Affine {
    pub factor: u64,
    pub offset: u64,
}

// The map of no step.
const IDENTITY: Affine = Affine {
    factor: 1,
    offset: 0,
};

// The map's value at x.
pub fn value_at(f: Affine, x: u64) -> u64
    ensures { result ≡ apply f x % 2 ^ 64 }
{
    wrapping_mul(f.factor, x).wrapping_add(f.offset)
}

// The map `first`, followed by the map `second`.
pub fn compose(first: Affine, second: Affine) -> Affine
    ensures { Composes first second result }
{
    let factor = wrapping_mul(second.factor, first.factor);
    let offset = value_at(second, first.offset);
    Affine { factor, offset }
}

// A jump under way: the stride, which is the map of 1, 2, 4, .. steps (document 02: the step in hand), the map of the steps
// done, and the index left.
#[derive(Clone, Copy)]
pub struct Progress {
    pub stride: Affine,
    pub done: Affine,
    pub left: u64,
}

// What the lowest bit of the index left asks for: the stride, or no step. The map is chosen and not the product, so that the
// choice is off the chain of products and compiles without a branch. `powers` has the like for a number: one expression each.
fn selected(p: Progress) -> Affine
    ensures { result ≡ selected_of p }
{
    select_unpredictable(p.left % 2 == 0, IDENTITY, p.stride)
}

// One round: does what the lowest bit asks for, doubles the stride and goes on with half the index.
pub fn round(p: Progress) -> Progress
    ensures { OneRound p result }
{
    let stride = p.stride;
    let done = compose(p.done, selected(p));
    let twice = compose(stride, stride);
    Progress {
        stride: twice,
        done,
        left: p.left / 2,
    }
}

// Four rounds in one body.
fn four_rounds(p: Progress) -> Progress
    ensures { Rounded 4 p result }
{
    round(round(round(round(p))))
}

// Up to 24 rounds, four at a time, as long as some index is left. It compiles to the six tests written out.
fn rounds_on(mut p: Progress) -> Progress
    ensures { Onward p result }
{
    for _ in 0..6 {
        p = four_rounds(p);
        if p.left == 0 {
            break;
        }
    }
    p
}

// The map "times factor, plus offset", followed by as many steps of "times a, plus c" as are left, down to index 0: up to 32
// rounds a call, with a return after each four once nothing is left. Rounds at index 0 leave the map done as it is. A call
// hands its map back through memory, so few are made, and what comes back has a name of its own, or every return would go
// that way; the numbers go to it in registers, where a struct would go through memory too. The first two fours stand outside the
// loop of `rounds_on`: one loop for the whole call was slower (docs/PERFORMANCE.md, "The rounds of the jump").
fn finish(a: u64, c: u64, factor: u64, offset: u64, left: u64) -> Affine
    ensures { Performed (progress_of a c factor offset left) result }
{
    let stride = Affine {
        factor: a,
        offset: c,
    };
    let done = Affine { factor, offset };
    let p4 = four_rounds(Progress { stride, done, left });
    if p4.left == 0 {
        return p4.done;
    }
    let p8 = four_rounds(p4);
    if p8.left == 0 {
        return p8.done;
    }
    let p = rounds_on(p8);
    if p.left == 0 {
        return p.done;
    }
    let rest = finish(
        p.stride.factor,
        p.stride.offset,
        p.done.factor,
        p.done.offset,
        p.left,
    );
    rest
}

// The map of i steps of "times a, plus c", two numbers as the note for the firmware has them. No step takes no round.
pub fn jump(a: u64, c: u64, i: u64) -> Affine
    ensures { Jumps a c i result }
{
    if i == 0 {
        return IDENTITY;
    }
    finish(a, c, 1, 0, i)
}
