// The calls over the C boundary, as include/noonpasture.h declares them: each is its call, answered in plain numbers. A slice
// passes as a pointer and a length, and a player as a pointer. What a call leaves of a player is stored only where it is accepted
// (`lent`), since a refused call is to write no byte.
#![tactic(auto)]

ghost use Rattle.std.specs.Prelude.{◌≡◌};
ghost use Rattle.generator.specs.Recurrence.{element};
ghost use Rattle.generator.specs.Check.{refusal_of};
ghost use Rattle.refusals.specs.Replies.{value_reply};
ghost use Rattle.predecessors.specs.Predecessor.{PredecessorPromise};
ghost use Rattle.customary.specs.Customary.{CustomaryPromise};
ghost use Rattle.orbits.specs.Orbit.{OrbitPromise};
ghost use Rattle.orbits.specs.Index.{IndexPromise};
ghost use Rattle.gaps.specs.Gap.{GapPromise};
ghost use Rattle.low_places.specs.Places.{PlacesPromise};
ghost use Rattle.lines.specs.ReadLine.{ReadPromise};
ghost use Rattle.lines.specs.WriteLine.{WritePromise};
ghost use Rattle.variety.specs.Variety.{VarietyPromise};
ghost use Rattle.remake.specs.Remake.{RemakePromise};
ghost use Rattle.player.specs.PlainPlayer.{Open, Forward, Back, SetMark, Return, Show};
ghost use Rattle.player.specs.Player.{PlayerPromise, told};
ghost use Rattle.fixes.specs.Fix.{FixPromise};
ghost use Rattle.lanes.specs.Lane.{LanePromise};
ghost use Rattle.lanes.specs.WriteLane.{WriteLanePromise};
ghost use Rattle.shared.specs.Shared.{SharedPromise};
ghost use Rattle.archive_line.specs.Line.{PartPromise};
ghost use Rattle.lookup.specs.Lookup.{LookupPromise};
ghost use Rattle.summary.specs.Summary.{SummaryPromise};

use archive_line::Part;
use fixes::FixReply;
use gaps::GapReply;
use generator::Generator;
use lines::RunReply;
use lookup::LookupReply;
use low_places::PlacesReply;
use orbits::{IndexReply, OrbitReply};
use player::states::lent;
use player::{Player, forwarded, marked, moved_back, opened, returned, shown};
use refusals::ValueReply;
use runs::Run;
use summary::SummaryReply;

// The element at this index.
#[unsafe(no_mangle)]
pub extern "C" fn np_element(g: Generator, index: u64) -> ValueReply
    ensures { result ≡ value_reply (refusal_of g) (element g index) }
{
    generator::element(g, index).into()
}

// The preperiod and the period.
#[unsafe(no_mangle)]
pub extern "C" fn np_orbit(g: Generator) -> OrbitReply
    ensures { OrbitPromise g result }
{
    orbits::orbit(g).into()
}

// The least index that yields the value, or never.
#[unsafe(no_mangle)]
pub extern "C" fn np_index(g: Generator, value: u64) -> IndexReply
    ensures { IndexPromise g value result }
{
    orbits::index(g, value).into()
}

// The indices at which the element's lowest places are the value: the least, and how it goes on; or never.
#[unsafe(no_mangle)]
pub extern "C" fn np_index_places(g: Generator, places: u64, value: u64) -> PlacesReply
    ensures { PlacesPromise g places value result }
{
    low_places::index_places(g, places, value).into()
}

// The steps from one number to another, back where they are negative, or never.
#[unsafe(no_mangle)]
pub extern "C" fn np_gap(g: Generator, from: u64, to: u64) -> GapReply
    ensures { GapPromise g from to result }
{
    gaps::gap(g, from, to).into()
}

// The only number that one step takes to this one.
#[unsafe(no_mangle)]
pub extern "C" fn np_predecessor(g: Generator, value: u64) -> ValueReply
    ensures { PredecessorPromise g value result }
{
    predecessors::predecessor(g, value).into()
}

// The largest odd power of 5 below 2^width.
#[unsafe(no_mangle)]
pub extern "C" fn np_customary_multiplier(width: u64) -> ValueReply
    ensures { CustomaryPromise width result }
{
    customary::customary_multiplier(width).into()
}

// How many different numbers the run shows.
#[unsafe(no_mangle)]
pub extern "C" fn np_variety(run: Run) -> ValueReply
    ensures { VarietyPromise run result }
{
    variety::variety(run).into()
}

// Writes the run's line, and gives its length.
#[unsafe(no_mangle)]
pub extern "C" fn np_write_line(run: Run, buffer: &mut [u8]) -> ValueReply
    ensures { WritePromise run buffer.old buffer.new result }
{
    lines::write_line(run, buffer).into()
}

// The run whose line the bytes are.
#[unsafe(no_mangle)]
pub extern "C" fn np_read_line(bytes: &[u8]) -> RunReply
    ensures { ReadPromise bytes.now result }
{
    lines::read_line(bytes).into()
}

// Writes what the run shows from this position on, and gives how many numbers.
#[unsafe(no_mangle)]
pub extern "C" fn np_remake(run: Run, position: u64, values: &mut [u64]) -> ValueReply
    ensures { RemakePromise run position values.old values.new result }
{
    remake::remake(run, position, values).into()
}

// Where the line with this number stands in the archive.
#[unsafe(no_mangle)]
pub extern "C" fn np_line(archive: &[u8], line: u64) -> Part
    ensures { PartPromise archive.now line result }
{
    archive_line::line_part(archive, line)
}

// The earliest place in the archive that shows the value.
#[unsafe(no_mangle)]
pub extern "C" fn np_lookup(archive: &[u8], value: u64) -> LookupReply
    ensures { LookupPromise archive.now value result }
{
    lookup::lookup(archive, value).into()
}

// How many lines the archive has, and the sum of their counts.
#[unsafe(no_mangle)]
pub extern "C" fn np_summary(archive: &[u8]) -> SummaryReply
    ensures { SummaryPromise archive.now result }
{
    summary::summary(archive).into()
}

// Opens a run at position 0, with no mark set.
#[unsafe(no_mangle)]
pub extern "C" fn np_player_open(player: &mut Player, run: Run) -> u64
    ensures { PlayerPromise (Open run) player.old player.new (told result) }
{
    lent(player, run, opened)
}

// Moves on by this many positions.
#[unsafe(no_mangle)]
pub extern "C" fn np_player_forward(player: &mut Player, steps: u64) -> u64
    ensures { PlayerPromise (Forward steps) player.old player.new (told result) }
{
    lent(player, steps, forwarded)
}

// Moves back by this many positions.
#[unsafe(no_mangle)]
pub extern "C" fn np_player_back(player: &mut Player, steps: u64) -> u64
    ensures { PlayerPromise (Back steps) player.old player.new (told result) }
{
    lent(player, steps, moved_back)
}

// Sets a mark to the position held.
#[unsafe(no_mangle)]
pub extern "C" fn np_player_mark(player: &mut Player, mark: u64) -> u64
    ensures { PlayerPromise (SetMark mark) player.old player.new (told result) }
{
    lent(player, mark, marked)
}

// Returns to a mark.
#[unsafe(no_mangle)]
pub extern "C" fn np_player_return(player: &mut Player, mark: u64) -> u64
    ensures { PlayerPromise (Return mark) player.old player.new (told result) }
{
    lent(player, mark, returned)
}

// The number at the position held.
#[unsafe(no_mangle)]
pub extern "C" fn np_player_show(player: &Player) -> ValueReply
    ensures { PlayerPromise Show player.now player.now result }
{
    shown(*player).into()
}

// The fix with this number: east of position 2 × fix, north of the position behind it.
#[unsafe(no_mangle)]
pub extern "C" fn np_fix_at(run: Run, fix: u64) -> FixReply
    ensures { FixPromise run fix result }
{
    fixes::fix_at(run, fix).into()
}

// The run of the lane with this number, of so many.
#[unsafe(no_mangle)]
pub extern "C" fn np_lane(run: Run, lanes: u64, lane: u64) -> RunReply
    ensures { LanePromise run lanes lane result }
{
    lanes::lane(run, lanes, lane).into()
}

// Writes the line of that lane, and gives its length.
#[unsafe(no_mangle)]
pub extern "C" fn np_write_lane(run: Run, lanes: u64, lane: u64, buffer: &mut [u8]) -> ValueReply
    ensures { WriteLanePromise run lanes lane buffer.old buffer.new result }
{
    lanes::write_lane(run, lanes, lane, buffer).into()
}

// How many different numbers occur in both runs.
#[unsafe(no_mangle)]
pub extern "C" fn np_shared(first: Run, second: Run) -> ValueReply
    ensures { SharedPromise first second result }
{
    shared::shared(first, second).into()
}
