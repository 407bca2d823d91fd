// What every call on an open player checks first.
ghost use Rattle.std.specs.Prelude.{◌≡◌};
ghost use Rattle.refusals.specs.Refusals.{check_number};
ghost use Rattle.player.specs.PlainPlayer.{held_refusal};
ghost use Rattle.player.specs.Player.{plain_player};

use crate::Player;
use refusals::Refusal;

// The run held, and then the position held.
pub fn held(player: Player) -> Result<(), Refusal>
    ensures { check_number result ≡ held_refusal (plain_player player) }
{
    runs::checked(player.run)?;
    if player.run.count <= player.position {
        return Err(Refusal::PositionOutOfRange);
    }
    Ok(())
}
