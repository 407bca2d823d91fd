// A line of any number of fields: its length, written, and read.
ghost use Rattle.std.specs.Prelude.{◌≡◌, ◌≤◌, length};
ghost use Rattle.fields.specs.Codec.{FrontWritten, LineRead, ArrayRead};
ghost use Rattle.fields.specs.Line.{fields_line, delimiter_before};

use decimals::field::{field_length, read_field, write_field};

// The delimiter of a field that n fields follow.
fn delimiter_before(n: usize) -> u8
    ensures { result ≡ delimiter_before n }
{
    if n == 0 { b'\n' } else { b',' }
}

// Reads a line of as many fields as there are numbers, and tells whether the bytes are one. The room is the caller's, since
// there is no heap; where the number of fields is known, `read_array` answers them. Compiled into `read_array`, it would keep the
// numbers in registers, of which there are too few, and take 1.25 of the time.
#[inline(never)]
pub fn read(bytes: &[u8], numbers: &mut [u64]) -> bool
    ensures { LineRead bytes.now numbers.old numbers.new result }
{
    let count = numbers.len();
    let mut at = 0;
    for (k, number) in numbers.iter_mut().enumerate() {
        let Some(field) = read_field(bytes, at, delimiter_before(count - k - 1)) else {
            return false;
        };
        *number = field.number;
        at = field.next;
    }
    at == bytes.len()
}

// The numbers of a line of N fields, if the bytes are one.
pub fn read_array<const N: usize>(bytes: &[u8]) -> Option<[u64; N]>
    ensures { ArrayRead bytes.now N result }
{
    let mut numbers = [0; N];
    read(bytes, &mut numbers).then_some(numbers)
}

// How many bytes the line of some numbers has.
pub fn length(numbers: &[u64]) -> usize
    requires { length numbers.now ≤ 65536 }
    ensures { result ≡ length (fields_line numbers.now) }
{
    numbers.iter().map(|&number| field_length(number) + 1).sum()
}

// Writes the line of some numbers to the front of a buffer, and gives the number of bytes: there is no heap.
pub fn write(buf: &mut [u8], numbers: &[u64]) -> usize
    requires { length (fields_line numbers.now) ≤ length buf.old }
    ensures { FrontWritten (fields_line numbers.now) buf.old buf.new result }
{
    let mut written = 0;
    for (k, &number) in numbers.iter().enumerate() {
        let delimiter = delimiter_before(numbers.len() - k - 1);
        written = write_field(buf, written, number, delimiter);
    }
    written
}
