// Printing. Each function writes a text at a place of the output, and returns the place after it.

ghost use Rattle.std.specs.Prelude.{[], ◌∷◌, ◌+◌, ◌≤◌, length};
ghost use Rattle.text.specs.Text.{digits, whole_digits, two_text};
ghost use Rattle.text.specs.Inner.{Put};

// Writes a text.
// Stays: output and place are two parameters, as a caller would know nothing of bytes written through a field (tried: no proof).
pub fn put_text(output: &mut [u8], at: usize, text: &[u8]) -> usize
    requires { at + length text.now ≤ length output.old }
    ensures { Put text.now at output.old output.new result }
{
    let end = at + text.len();
    output[at..end].copy_from_slice(text);
    end
}

// Writes one byte.
// Stays: output and place are two parameters, as a caller would know nothing of bytes written through a field (tried: no proof).
pub fn put_byte(output: &mut [u8], at: usize, byte: u8) -> usize
    requires { at + length (byte ∷ []) ≤ length output.old }
    ensures { Put (byte ∷ []) at output.old output.new result }
{
    output[at] = byte;
    at + 1
}

// Writes a number in decimal.
// Stays: output and place are two parameters, as a caller would know nothing of bytes written through a field (tried: no proof).
// Stays: `Display` would print through a writer that holds the output, of which the same is so.
pub fn put_number(output: &mut [u8], at: usize, n: u64) -> usize
    requires { at + length (digits n) ≤ length output.old }
    ensures { Put (digits n) at output.old output.new result }
{
    let digit = b'0' + (n % 10) as u8;
    if n < 10 {
        return put_byte(output, at, digit);
    }
    let last = put_number(output, at, n / 10);
    put_byte(output, last, digit)
}

// Writes a level in decimal.
// Stays: output and place are two parameters, as a caller would know nothing of bytes written through a field (tried: no proof).
pub fn put_level(output: &mut [u8], at: usize, level: i16) -> usize
    requires { at + length (whole_digits level) ≤ length output.old }
    ensures { Put (whole_digits level) at output.old output.new result }
{
    let size = u64::from(level.unsigned_abs());
    if level < 0 {
        let sign = put_byte(output, at, b'-');
        return put_number(output, sign, size);
    }
    put_number(output, at, size)
}

// Writes two numbers with a blank between them.
// Stays: output and place are two parameters, as a caller would know nothing of bytes written through a field (tried: no proof).
pub fn put_two(output: &mut [u8], at: usize, a: u64, b: u64) -> usize
    requires { at + length (two_text a b) ≤ length output.old }
    ensures { Put (two_text a b) at output.old output.new result }
{
    let first = put_number(output, at, a);
    let blank = put_byte(output, first, b' ');
    put_number(output, blank, b)
}
