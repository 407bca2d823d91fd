// Standard output.
ghost use Rattle.std.specs.Prelude.{◌≡◌, true};
ghost use Rattle.std.specs.Io.KnownBytes.{Appends};

use std::io::Write;

// Writes to standard output. If that fails, the complaint goes to standard error. Where the bytes that a writer holds are known,
// all were written if it says so. The writers stay two arguments: a struct of two loans would need a clause for each, that it is
// the same loan after the call.
pub fn print<W: Write, E: Write>(
    output: &mut W,
    errors: &mut E,
    bytes: &[u8],
    complaint: &[u8],
) -> bool
    ensures { result ≡ true → Appends (W.contents output.old) (W.contents output.new) bytes.now }
{
    if output.write_all(bytes).is_ok() {
        return true;
    }
    let _ = errors.write_all(complaint);
    false
}
