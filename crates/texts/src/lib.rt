// Text in ASCII, written into a buffer that is lent. By hand and not by `Display`: std says nothing of what a formatter writes, and each byte of this text is promised.
#![tactic(auto)]

ghost use Rattle.std.specs.Prelude.{◌+◌, ◌≤◌, ◌<◌, ◌≡◌, [], ◌∷◌, ◌++◌, length};
ghost use Rattle.io.specs.Digits.{hex_digit_ascii, last_digits};
ghost use Rattle.interface.specs.Journal.{decimal};
ghost use Rattle.texts.specs.Texts.{hexadecimal, padded, Wrote};

// Copies a text into a buffer at a place. Answers where the text ends.
pub fn put(out: &mut [u8], at: usize, text: &[u8]) -> usize
    requires { at + length text.now ≤ length out.old }
    ensures { Wrote out.old at text.now out.new result }
{
    endian::put_bytes(out, at, text);
    at + text.len()
}

// Writes a number in decimal into a buffer at a place. Answers where the number ends.
pub fn put_decimal(out: &mut [u8], at: usize, number: u64) -> usize
    requires { at + length (decimal number) ≤ length out.old }
    ensures { Wrote out.old at (decimal number) out.new result }
{
    let mut digits = [0u8; 20];
    let count = io::decimal(number, &mut digits);
    put(out, at, &digits[..count])
}

// Writes a number in decimal, and a byte after it. Answers where that ends.
pub fn put_number(out: &mut [u8], at: usize, number: u64, after: u8) -> usize
    requires { at + length (decimal number) < length out.old }
    ensures { Wrote out.old at (decimal number ++ (after ∷ [])) out.new result }
{
    let end = put_decimal(out, at, number);
    out[end] = after;
    end + 1
}

// Writes a number in decimal at the right end of so many bytes, with blanks before it. Answers where the number ends: a number of more digits takes more bytes.
pub fn put_right(out: &mut [u8], at: usize, width: usize, number: u64) -> usize
    requires { at + length (padded width (decimal number)) ≤ length out.old }
    ensures { Wrote out.old at (padded width (decimal number)) out.new result }
{
    let mut digits = [0u8; 20];
    let count = io::decimal(number, &mut digits);
    let start = at + width.saturating_sub(count);
    out[at..start].fill(b' ');
    put(out, start, &digits[..count])
}

// The ASCII of a hexadecimal digit.
fn hex_glyph(digit: u8) -> u8
    requires { digit < 16 }
    ensures { result ≡ hex_digit_ascii digit }
{
    if digit < 10 {
        return b'0' + digit;
    }
    b'a' + (digit - 10)
}

// Writes so many hexadecimal digits of a number, its last ones. Answers where they end.
fn put_digits(out: &mut [u8], at: usize, number: u64, count: usize) -> usize
    requires { at + count ≤ length out.old }
    ensures { Wrote out.old at (last_digits 16 count number) out.new result }
{
    if count == 0 {
        return at;
    }
    let last = put_digits(out, at, number / 16, count - 1);
    out[last] = hex_glyph((number % 16) as u8);
    last + 1
}

// Writes `0x` and so many hexadecimal digits of a number, its last ones. Answers where they end.
pub fn put_hex(out: &mut [u8], at: usize, number: u64, count: usize) -> usize
    requires { at + length (hexadecimal count number) ≤ length out.old }
    ensures { Wrote out.old at (hexadecimal count number) out.new result }
{
    let start = put(out, at, b"0x");
    put_digits(out, start, number, count)
}
