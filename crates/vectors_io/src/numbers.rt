// The numbers of a call.
ghost use Rattle.std.specs.Prelude.{IfSome, ◌≤◌, length};

use fields::line;

// The numbers of a line, read into a buffer; none where one of them does not read or there are more than fit.
pub fn read<'a>(line: &[u8], numbers: &'a mut [u64]) -> Option<&'a [u64]>
    ensures { IfSome result (λ read. length read.now ≤ length numbers.old) }
{
    let n = marks(line);
    if numbers.len() < n {
        return None;
    }
    let room = &mut numbers[..n];
    if !line::read(line, room) {
        return None;
    }
    Some(room)
}

// How many commas and bytes 10 there are.
fn marks(line: &[u8]) -> usize {
    line.iter().filter(|&&b| b == b',' || b == b'\n').count()
}

// The bytes of a list of them, in front of them their count, made in a buffer.
pub fn read_bytes<'a>(numbers: &[u64], buffer: &'a mut [u8]) -> Option<&'a [u8]>
    ensures { IfSome result (λ bytes. length bytes.now ≤ length buffer.old) }
{
    let (&count, bytes) = numbers.split_first()?;
    if count != bytes.len() as u64 || buffer.len() < bytes.len() {
        return None;
    }
    let room = &mut buffer[..bytes.len()];
    for (place, &number) in room.iter_mut().zip(bytes) {
        *place = u8::try_from(number).ok()?;
    }
    Some(room)
}
