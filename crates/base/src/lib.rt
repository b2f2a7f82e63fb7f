// What every floor of the library stands on: upper-case hexadecimal digits both ways, lines, and parts of slices.
#![tactic(auto)]

ghost use Rattle.std.specs.Prelude.{◌≡◌, ◌%◌, ◌^◌, length, get_or, take, drop};
ghost use Rattle.base.specs.Hex.{is_hex, hex_of, digit_value, digit_of, hex_number, hex_word, digits_of, bytes_of};
ghost use Rattle.base.specs.Leading.{leading};
ghost use Rattle.base.specs.Lines.{line_end, not_newline};
ghost use Rattle.base.specs.Part.{PointsInto};

// The value of an upper-case hexadecimal digit; 16 for any other byte. One arm a digit: a table, where two ranges would be branches
// that no processor foresees. 16 and no Option: with one `text::char_run` jumps by a digit, foreseen wrongly at 0.84 of random
// characters, and misses the rows of docs/PERFORMANCE.md for jobs with texts.
#[tactic(auto, unfolding(crate::specs::Hex::digit_value, crate::specs::Hex::is_hex, crate::specs::Hex::hex_of))]
pub fn digit_value(b: u8) -> u8
    ensures { result ≡ digit_value b }
{
    match b {
        b'0' => 0,
        b'1' => 1,
        b'2' => 2,
        b'3' => 3,
        b'4' => 4,
        b'5' => 5,
        b'6' => 6,
        b'7' => 7,
        b'8' => 8,
        b'9' => 9,
        b'A' => 10,
        b'B' => 11,
        b'C' => 12,
        b'D' => 13,
        b'E' => 14,
        b'F' => 15,
        _ => 16,
    }
}

// Whether a byte is an upper-case hexadecimal digit.
pub fn is_hex(b: u8) -> bool
    ensures { result ≡ is_hex b }
{
    digit_value(b) < 16
}

// The value of an upper-case hexadecimal digit; 0 for any other byte. 0 and no Option: callers take any bytes,
// and `hex_of` gives each a value.
pub fn hex_value(b: u8) -> u8
    ensures { result ≡ hex_of b }
{
    digit_value(b) % 16
}

// The digit of the low four bits of a number.
#[tactic(auto, unfolding(crate::specs::Hex::digit_of))]
pub fn hex_digit(v: u32) -> u8
    ensures { result ≡ digit_of (v % 16) }
{
    let d = (v % 16) as u8;
    if d <= 9 { d + b'0' } else { d + 55 }
}

// How many hexadecimal digits the slice begins with.
pub fn hex_run(s: &[u8]) -> usize
    ensures { result ≡ leading is_hex s.now }
{
    s.iter().take_while(|&&b| is_hex(b)).count()
}

// The number that the digits of the slice write, its low 32 bits where there are more than eight.
// Beside `hex_word`: this one takes any bytes and cannot fail.
pub fn hex_number(s: &[u8]) -> u32
    ensures { result ≡ hex_number 0 s.now % 2 ^ 32 }
{
    let mut n: u32 = 0;
    for b in s {
        n = n % 268435456 * 16 + u32::from(hex_value(*b));
    }
    n
}

// The number that the slice writes, its low 32 bits where there are more than eight digits; none where a byte is no digit. Each byte is
// read once.
pub fn hex_word(s: &[u8]) -> Option<u32>
    ensures { result ≡ hex_word s.now }
{
    let mut n: u32 = 0;
    for b in s {
        let d = digit_value(*b);
        if d == 16 {
            return None;
        }
        n = n % 268435456 * 16 + u32::from(d);
    }
    Some(n)
}

// Fills the slice with the lowest digits of a number, the most significant first.
// By index: after `iter_mut().rev()` a proof knows no list of what is written.
pub fn write_digits(out: &mut [u8], number: u32)
    ensures { out.new ≡ digits_of (length out.old) number }
{
    let mut rest = number;
    for i in (0..out.len()).rev() {
        out[i] = hex_digit(rest);
        rest /= 16;
    }
}

// The byte at index k of bytes written as pairs of digits, or fill behind the last pair.
pub fn pair_byte(pairs: &[u8], k: usize, fill: u8) -> u8
    ensures { result ≡ get_or (bytes_of pairs.now) k fill }
{
    if k < pairs.len() / 2 {
        let high = hex_value(pairs[2 * k]);
        let low = hex_value(pairs[2 * k + 1]);
        high * 16 + low
    } else {
        fill
    }
}

// How many bytes there are before the first newline, or in all.
fn line_length(s: &[u8]) -> usize
    ensures { result ≡ leading not_newline s.now }
{
    s.iter().take_while(|&&b| b != b'\n').count()
}

// Where the line that starts at an index ends: the index of its newline, or of the end where there is none.
// The end and no Option: `line_end` in specs, which CLAIMS names, is total; `phrases::newline` tells the two apart.
pub fn line_end(s: &[u8], at: usize) -> usize
    ensures { result ≡ line_end s.now at }
{
    if s.len() <= at {
        return at;
    }
    at + line_length(&s[at..])
}

// A part of a slice, no copy: so many bytes from start on, or what is left of them.
pub fn part(s: &[u8], start: usize, length: usize) -> &[u8]
    ensures points_into { PointsInto result s.entry start }
    ensures result_value { result.now ≡ take length (drop start s.now) }
{
    if s.len() < start {
        let n = s.len();
        return &s[n..];
    }
    let left = s.len() - start;
    if left < length {
        return &s[start..];
    }
    let end = start + length;
    &s[start..end]
}
