// A field: the decimal digits of an unsigned 64-bit number without leading zeros, and the byte
// behind them, its delimiter: a comma (44), or 10 at the end of a line.
ghost use Rattle.std.specs.Prelude.{◌≡◌, ◌++◌, ◌+◌, ◌-◌, ◌*◌, ◌≤◌, ◌<◌, ◌^◌, SomeIff, length, take, drop};
ghost use Rattle.decimals.specs.Digits.{digits_of};
ghost use Rattle.decimals.specs.Field.{FieldOf, Written};

// A field that was read: its number and the index behind its delimiter.
#[derive(Clone, Copy)]
pub struct Field {
    pub number: u64,
    pub next: usize,
}

// Reads the field at `at`, with its delimiter. The enum that it answers is Option.
pub fn read_field(s: &[u8], at: usize, delimiter: u8) -> Option<Field>
    requires { delimiter < 48 }
    ensures { FieldOf (drop at s.now) s.now delimiter result }
{
    let first = digit(*s.get(at)?)?;
    read_on(s, at + 1, delimiter, first)
}

// Reads on at `from`, behind the digits of `first`.
fn read_on(s: &[u8], from: usize, delimiter: u8, first: u64) -> Option<Field>
    requires from_in_bounds { from ≤ length s.now }
    requires delimiter_below_digits { delimiter < 48 }
    ensures { FieldOf (digits_of first ++ drop from s.now) s.now delimiter result }
{
    let mut number = first;
    for (i, &b) in s[from..].iter().enumerate() {
        let Some(d) = digit(b) else {
            if b == delimiter {
                return Some(Field {
                    number,
                    next: from + i + 1,
                });
            }
            return None;
        };
        number = appended(number, d)?;
    }
    None
}

// The digit that a byte stands for. Compiled into its callers before they are, so that no byte is chosen for one that stands for none.
#[inline(always)]
fn digit(b: u8) -> Option<u64>
    ensures { SomeIff result ((48 ≤ b) × (b < 58)) (b - 48) }
{
    if b.is_ascii_digit() {
        Some(u64::from(b - b'0'))
    } else {
        None
    }
}

// The number with the digits of `v` and behind them `d`: none has them where `v` would be a leading
// zero, or the number is above 2^64 - 1.
fn appended(v: u64, d: u64) -> Option<u64>
    requires { d < 10 }
    ensures { SomeIff result ((0 < v) × (v * 10 + d < 2 ^ 64)) (v * 10 + d) }
{
    if v == 0 {
        return None;
    }
    v.checked_mul(10)?.checked_add(d)
}

// How many digits the number has.
pub fn field_length(v: u64) -> usize
    ensures { (result ≡ length (digits_of v)) × (result ≤ 20) }
{
    v.checked_ilog10().unwrap_or(0) as usize + 1
}

// Writes the field of `v` at `at`, with its delimiter, and answers the index behind it: there is no heap.
pub fn write_field(buf: &mut [u8], at: usize, v: u64, delimiter: u8) -> usize
    requires { at + length (digits_of v) + 1 ≤ length buf.old }
    ensures { Written buf.old buf.new at v delimiter result }
{
    let end = at + field_length(v);
    buf[end] = delimiter;
    write_digits(buf, at, end, v);
    end + 1
}

// Writes the digits of `v` from `at` up to `end`, the last one first.
fn write_digits(buf: &mut [u8], at: usize, end: usize, v: u64)
    requires end_value { end ≡ at + length (digits_of v) }
    requires end_in_bounds { end ≤ length buf.old }
    ensures { buf.new ≡ take at buf.old ++ (digits_of v ++ drop end buf.old) }
{
    let mut rest = v;
    for i in (at..end).rev() {
        buf[i] = b'0' + (rest % 10) as u8;
        rest /= 10;
    }
}
