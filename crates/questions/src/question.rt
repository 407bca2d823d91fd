// The question on standard input: one line of some fields, and nothing else.
ghost use Rattle.std.specs.Prelude.{suc, ◌*◌, ◌≤◌};
ghost use Rattle.questions.specs.Question.{AskPromise};

use archive_io::input::Input;
use fields::line;

// The N numbers of the question that standard input holds, if it holds one. A field has at most 20 digits and its delimiter,
// so one byte more than 21 for each shows that it is none.
pub fn ask<const N: usize>(input: Input<'_>) -> Option<[u64; N]>
    requires numbers_in_bounds { suc (21 * N) ≤ input.room }
    ensures { AskPromise input.entry.bytes.now input.entry.rest N result }
{
    let bytes = input.readable()?;
    line::read_array(bytes)
}
