// What a call leaves.
ghost use Rattle.std.specs.Prelude.{◌≡◌, Result};
ghost use Rattle.refusals.specs.declared.Refusal.{Refusal};
ghost use Rattle.player.specs.Player.{at, left, refusal_told};

use crate::Player;
use refusals::{Refusal, number};

// The record at another position.
pub fn moved(player: Player, position: u64) -> Player
    ensures { result ≡ at player position }
{
    Player { position, ..player }
}

// A record that is lent: the callee has it by value, and the record that it leaves is stored unless it refuses. Gives the refusal's
// number, 0 for none, as C is told.
pub fn lent<A, F: FnOnce(Player, A) -> Result<Player, Refusal>>(
    player: &mut Player,
    argument: A,
    callee: F,
) -> u64
    requires { F.pre callee player.old argument }
    ensures { (r : Result Player Refusal) × F.post callee player.old argument r × (player.new ≡ left player.old r) × (result ≡ refusal_told r) }
{
    match callee(*player, argument) {
        Ok(after) => {
            *player = after;
            0
        }
        Err(refusal) => number(refusal),
    }
}
