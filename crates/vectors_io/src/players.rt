// The calls on a player: a list of them, made one after the other on one record.
ghost use Rattle.std.specs.Prelude.{◌≤◌, length};

use crate::calls::run_of;
use player::states::lent;
use player::{Mark, Player, forwarded, marked, moved_back, opened, returned, shown};
use refusals::ValueReply;
use runs::Run;

// The reply to the last call, and the record after it: the 15 numbers of the record before the first, the 6 of the run that is
// opened, then two numbers for each call.
pub fn reply(n: &[u64]) -> Option<[u64; 17]> {
    let (record, calls) = n.split_first_chunk::<21>()?;
    let run = run_of(&record[15..]);
    let mut player = player_of(record);
    let last = made(calls, run, &mut player);
    Some(told(last, player))
}

// Makes the calls, and gives the reply to the last one.
fn made(calls: &[u64], run: Run, player: &mut Player) -> ValueReply {
    let mut last = ValueReply {
        refusal: 0,
        value: 0,
    };
    for call in calls.chunks_exact(2) {
        last = called(player, run, call[0], call[1]);
    }
    last
}

// One call, by its number. A match and no table, since the functions have different types.
fn called(player: &mut Player, run: Run, call: u64, argument: u64) -> ValueReply {
    match call {
        0 => silent(lent(player, run, opened)),
        1 => silent(lent(player, argument, forwarded)),
        2 => silent(lent(player, argument, moved_back)),
        3 => silent(lent(player, argument, marked)),
        4 => silent(lent(player, argument, returned)),
        _ => shown(*player).into(),
    }
}

// The reply to a call that shows no number.
fn silent(refusal: u64) -> ValueReply {
    ValueReply { refusal, value: 0 }
}

// The record of the first 15 numbers, spelled out as the generator of a call is.
fn player_of(n: &[u64]) -> Player
    requires { 15 ≤ length n.now }
{
    Player {
        run: run_of(n),
        position: n[6],
        marks: [
            mark_of(&n[7..]),
            mark_of(&n[9..]),
            mark_of(&n[11..]),
            mark_of(&n[13..]),
        ],
    }
}

fn mark_of(n: &[u64]) -> Mark
    requires { 2 ≤ length n.now }
{
    Mark {
        set: n[0],
        position: n[1],
    }
}

// All of it in plain numbers.
fn told(last: ValueReply, player: Player) -> [u64; 17] {
    let run = player.run;
    let g = run.generator;
    let [a, b, c, d] = player.marks;
    [
        last.refusal,
        last.value,
        g.width,
        g.multiplier,
        g.increment,
        g.seed,
        run.first,
        run.count,
        player.position,
        a.set,
        a.position,
        b.set,
        b.position,
        c.set,
        c.position,
        d.set,
        d.position,
    ]
}
