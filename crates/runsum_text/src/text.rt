// The text of the summary. Each function writes from the first byte of the buffer on and answers how many bytes it wrote: there
// is no heap. Runs and archive are accepted, by clauses as in `archive::parts`.
ghost use Rattle.std.specs.Prelude.{◌≡◌, ◌≤◌, length};
ghost use Rattle.fields.specs.Codec.{FrontWritten};
ghost use Rattle.runs.specs.Run.{run_refusal};
ghost use Rattle.archive.specs.Archive.{runs_in};
ghost use Rattle.archive.specs.Check.{check_of};
ghost use Rattle.summary.specs.Summary.{total_of};
ghost use Rattle.runsum_text.specs.Text.{run_text, runs_text, total_text, summary_text};

use archive::parts::runs_of;
use fields::line;
use notices::notice::write_word;
use runs::Run;
use variety::counts::variety_of;

// The line of an accepted run: its number, count and variety.
fn write_run(buf: &mut [u8], number: u64, run: Run) -> usize
    requires run_value { run_refusal run ≡ 0 }
    requires run_in_bounds { length (run_text number run) ≤ length buf.old }
    ensures { FrontWritten (run_text number run) buf.old buf.new result }
{
    let variety = variety_of(run);
    line::write(buf, &[number, run.count, variety])
}

// The lines of an accepted archive's runs.
fn write_runs(buf: &mut [u8], archive: &[u8]) -> usize
    requires archive_value { (check_of archive.now).refusal ≡ 0 }
    requires archive_in_bounds { length (runs_text 1 (runs_in archive.now)) ≤ length buf.old }
    ensures { FrontWritten (runs_text 1 (runs_in archive.now)) buf.old buf.new result }
{
    let mut n = 0;
    for (run, number) in runs_of(archive).zip(1..) {
        n += write_run(&mut buf[n..], number, run);
    }
    n
}

// The line of the total.
#[tactic(auto, using(fields::proofs::FrontWriting::line_behind))]
fn write_total(buf: &mut [u8], total: u64) -> usize
    requires { length (total_text total) ≤ length buf.old }
    ensures { FrontWritten (total_text total) buf.old buf.new result }
{
    let n = write_word(buf, b"total,");
    n + line::write(&mut buf[n..], &[total])
}

// The whole text of an accepted archive, whose total is known.
#[tactic(auto, using(crate::proofs::Writing::runs_room, crate::proofs::Writing::total_room))]
pub fn write_text(buf: &mut [u8], archive: &[u8], total: u64) -> usize
    requires archive_value { (check_of archive.now).refusal ≡ 0 }
    requires total_value { total ≡ total_of (runs_in archive.now) }
    requires archive_in_bounds { length (summary_text archive.now) ≤ length buf.old }
    ensures { FrontWritten (summary_text archive.now) buf.old buf.new result }
{
    let n = write_runs(buf, archive);
    n + write_total(&mut buf[n..], total)
}
