// A player: a run, a position on it and four marks. Each call takes the record by value and gives the record after it, or a refusal,
// beside which the record is as it was. Over the C boundary `noonpasture` has the same calls on a record that is lent.
#![tactic(auto)]

ghost use Rattle.player.specs.PlainPlayer.{Open, Forward, Back, SetMark, Return, Show};
ghost use Rattle.player.specs.Player.{PlayerPromise, told, left, refusal_told};
ghost use Rattle.refusals.specs.Replies.{plain_value};

use checks::held;
use generator::kinds::value_of;
use refusals::Refusal;
use runs::Run;
use states::moved;

pub mod checks;
pub mod states;

// A position to return to, as C has it: `set` is 0 while there is none; any other number stands for set.
#[repr(C)]
#[derive(Clone, Copy, Default)]
pub struct Mark {
    pub set: u64,
    pub position: u64,
}

// Any numbers may stand in it.
#[repr(C)]
#[derive(Clone, Copy)]
pub struct Player {
    pub run: Run,
    pub position: u64,
    pub marks: [Mark; 4],
}

// Opens a run at position 0, with no mark set.
pub fn opened(before: Player, run: Run) -> Result<Player, Refusal>
    ensures { PlayerPromise (Open run) before (left before result) (told (refusal_told result)) }
{
    runs::checked(run)?;
    let marks = [Mark::default(); 4];
    Ok(Player {
        run,
        position: 0,
        marks,
    })
}

// Moves on by this many positions.
pub fn forwarded(player: Player, steps: u64) -> Result<Player, Refusal>
    ensures { PlayerPromise (Forward steps) player (left player result) (told (refusal_told result)) }
{
    held(player)?;
    if player.run.count - player.position <= steps {
        return Err(Refusal::PositionOutOfRange);
    }
    Ok(moved(player, player.position + steps))
}

// Moves back by this many positions, whatever the multiplier.
pub fn moved_back(player: Player, steps: u64) -> Result<Player, Refusal>
    ensures { PlayerPromise (Back steps) player (left player result) (told (refusal_told result)) }
{
    held(player)?;
    if player.position < steps {
        return Err(Refusal::PositionOutOfRange);
    }
    Ok(moved(player, player.position - steps))
}

// Sets a mark to the position held.
pub fn marked(player: Player, mark: u64) -> Result<Player, Refusal>
    ensures { PlayerPromise (SetMark mark) player (left player result) (told (refusal_told result)) }
{
    held(player)?;
    if 3 < mark {
        return Err(Refusal::BookmarkInvalid);
    }
    let mut marks = player.marks;
    marks[mark as usize] = Mark {
        set: 1,
        position: player.position,
    };
    Ok(Player { marks, ..player })
}

// Returns to a mark that is set. Its position is looked at here, and not before.
pub fn returned(player: Player, to: u64) -> Result<Player, Refusal>
    ensures { PlayerPromise (Return to) player (left player result) (told (refusal_told result)) }
{
    held(player)?;
    if 3 < to {
        return Err(Refusal::BookmarkInvalid);
    }
    let marks = player.marks;
    let target = marks[to as usize];
    if target.set == 0 {
        return Err(Refusal::BookmarkInvalid);
    }
    if player.run.count <= target.position {
        return Err(Refusal::PositionOutOfRange);
    }
    Ok(moved(player, target.position))
}

// The number at the position held.
pub fn shown(player: Player) -> Result<u64, Refusal>
    ensures { PlayerPromise Show player player (plain_value result) }
{
    held(player)?;
    let index = player.run.first + player.position;
    Ok(value_of(player.run.generator, index))
}
