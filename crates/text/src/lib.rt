// The characters of a page's text and its 20-bit message groups (document 01, "Texts"), and the groups of data (request R-11).
// A text is handed in as it stands in a job: pairs of upper-case hexadecimal digits; data in fives of them.
#![tactic(auto)]

ghost use Rattle.std.specs.Prelude.{◌≡◌, ◌*◌, ◌%◌, ◌≤◌, ◌<◌, length, get_or, take};
ghost use Rattle.base.specs.Hex.{hex_of, digit_of, bytes_of};
ghost use Rattle.base.specs.Lists.{over, tab};
ghost use Rattle.text.specs.Numeric.{numeric_of, numeric_byte};
ghost use Rattle.text.specs.Coding.{is_numeric, char_ok, pair_ok, char_run, ends_in_space, width_of, fill_of, value_of, turned_of, group_of, groups_of};
ghost use Rattle.text.specs.Fives.{five_at};
ghost use Rattle.text.specs.Packing.{Few, Refilled};
ghost use Rattle.text.specs.Heard.{char_heard, ends, heard_text};
ghost use Rattle.text.specs.Answer.{heard_digits, heard_into, count_of};
ghost use Rattle.text.specs.Window.{More};
ghost use Rattle.text.specs.declared.Coding.TheVariants.{Numeric, Alphanumeric};

// The two ways to write a text in bits.
#[derive(Clone, Copy, Debug, PartialEq, Eq)]
pub enum Coding {
    Numeric,
    Alphanumeric,
}

// Table III, from the byte to the value. The spare value has no character.
#[tactic(auto, unfolding(crate::specs::Numeric::numeric_of))]
fn numeric_value(b: u8) -> Option<u8>
    ensures { result ≡ numeric_of b }
{
    match b {
        b'0'..=b'9' => Some(b - b'0'),
        b'U' => Some(11),
        b' ' => Some(12),
        b'-' => Some(13),
        b']' => Some(14),
        b'[' => Some(15),
        _ => None,
    }
}

// Table III, from the value to the byte. The spare is shown as `*`.
#[tactic(auto, unfolding(crate::specs::Numeric::numeric_byte))]
fn numeric_byte(v: u8) -> u8
    ensures { result ≡ numeric_byte v }
{
    match v {
        0..=9 => v + b'0',
        11 => b'U',
        12 => b' ',
        13 => b'-',
        14 => b']',
        15 => b'[',
        _ => b'*',
    }
}

// Whether a byte is a Table III character.
fn is_numeric(b: u8) -> bool
    ensures { result ≡ is_numeric b }
{
    numeric_value(b).is_some()
}

// Whether a byte is among the characters of a coding.
fn is_char(c: Coding, b: u8) -> bool
    ensures { result ≡ char_ok c b }
{
    match c {
        Coding::Numeric => is_numeric(b),
        Coding::Alphanumeric => matches!(b, 1 | 2 | 5..=127),
    }
}

// Whether two bytes are digits that write a character of the coding. Both digits have one test: two would compile to jumps by the
// digits, which no processor foresees.
fn is_pair(c: Coding, high: u8, low: u8) -> bool
    ensures { result ≡ pair_ok c high low }
{
    let high = base::digit_value(high);
    let low = base::digit_value(low);
    if 16 <= high | low {
        return false;
    }
    is_char(c, high * 16 + low)
}

// How many characters of the coding a text begins with, each written as a pair of digits.
pub fn char_run(c: Coding, text: &[u8]) -> usize
    ensures { result ≡ char_run c text.now }
{
    text.chunks_exact(2)
        .take_while(|pair| is_pair(c, pair[0], pair[1]))
        .count()
}

// Whether a numeric text ends in a space.
pub fn ends_in_space(c: Coding, text: &[u8]) -> bool
    ensures { result ≡ ends_in_space c (bytes_of text.now) }
{
    match c {
        Coding::Numeric => {
            let n = text.len() / 2;
            if n == 0 {
                return false;
            }
            base::pair_byte(text, n - 1, 0) == b' '
        }
        Coding::Alphanumeric => false,
    }
}

// Bits a character.
fn width(c: Coding) -> usize
    ensures { result ≡ width_of c }
{
    match c {
        Coding::Numeric => 4,
        Coding::Alphanumeric => 7,
    }
}

// Four bits turned round. One arm a value: a table, where turning them would be a loop. Together with `hex_value` or `hex_digit` it is
// still one table when compiled.
#[tactic(auto, unfolding(crate::specs::Coding::turned_of, crate::specs::Coding::bits_from))]
fn turned_bits(bits: u32) -> u8
    ensures { result ≡ turned_of 4 (bits % 16) }
{
    match bits % 16 {
        0 => 0,
        1 => 8,
        2 => 4,
        3 => 12,
        4 => 2,
        5 => 10,
        6 => 6,
        7 => 14,
        8 => 1,
        9 => 9,
        10 => 5,
        11 => 13,
        12 => 3,
        13 => 11,
        14 => 7,
        _ => 15,
    }
}

// The value of a hexadecimal digit with its four bits turned round; 0 for any other byte.
fn turned_digit(b: u8) -> u32
    ensures { result ≡ turned_of 4 (hex_of b) }
{
    let value = u32::from(base::hex_value(b));
    u32::from(turned_bits(value))
}

// The value of a numeric character; 0 for any other byte. 0 and no Option: callers take any bytes, and `value_of` gives
// each a value.
fn value_or_zero(b: u8) -> u8
    ensures { result ≡ value_of Numeric b }
{
    numeric_value(b).unwrap_or(0)
}

// The bits of the character at index k, the first to be sent on top; those of fill behind the last.
fn char_bits(c: Coding, text: &[u8], k: usize) -> u32
    ensures { result ≡ turned_of (width_of c) (value_of c (get_or (bytes_of text.now) k (fill_of c))) }
{
    match c {
        Coding::Numeric => {
            let value = u32::from(value_or_zero(base::pair_byte(text, k, b' ')));
            u32::from(turned_bits(value))
        }
        Coding::Alphanumeric => {
            if text.len() / 2 <= k {
                return 0;
            }
            turned_digit(text[2 * k + 1]) * 8 + turned_digit(text[2 * k]) / 2
        }
    }
}

// Bits on their way into groups, or out of them: the low `have` bits of the window, the first on top, and the index of the next character,
// or group.
#[derive(Clone, Copy)]
struct Bits {
    window: u64,
    have: usize,
    next: usize,
}

const NO_BITS: Bits = Bits {
    window: 0,
    have: 0,
    next: 0,
};

// Characters behind the bits until there are 20. No `for`: how many characters it takes depends on the bits that are left.
fn refill(c: Coding, text: &[u8], mut b: Bits) -> Bits
    requires { Few b }
    ensures { Refilled c (bytes_of text.now) b result }
{
    let w = width(c);
    while b.have < 20 {
        b.window = (b.window << w) + u64::from(char_bits(c, text, b.next));
        b.have += w;
        b.next += 1;
    }
    b
}

// Fills a slice with a text's first groups, each with its first bit on top. One pass: each character is read once.
pub fn write_groups(c: Coding, text: &[u8], groups: &mut [u32])
    ensures { groups.new ≡ tab (group_of c (bytes_of text.now)) (length groups.old) }
{
    let mut b = NO_BITS;
    for group in groups.iter_mut() {
        b = refill(c, text, b);
        let rest = b.have - 20;
        *group = (b.window >> rest) as u32;
        b.window %= 1 << rest;
        b.have = rest;
    }
}

// Fills a slice with the first groups of data, five digits each. Where the digits run out a group is the number that those left write, 0
// where none are.
pub fn write_fives(digits: &[u8], groups: &mut [u32])
    ensures { groups.new ≡ tab (five_at digits.now) (length groups.old) }
{
    for (g, group) in groups.iter_mut().enumerate() {
        *group = base::hex_number(base::part(digits, 5 * g, 5));
    }
}

// How many groups so many characters take.
pub fn groups(c: Coding, count: u16) -> usize
    ensures { result ≡ groups_of c count }
{
    (usize::from(count) * width(c) + 19) / 20
}

// The hexadecimal digit of four bits, the lowest first.
fn bits_digit(bits: u32) -> u8
    ensures { result ≡ digit_of (turned_of 4 (bits % 16)) }
{
    base::hex_digit(u32::from(turned_bits(bits)))
}

// The numeric character at index i of groups, five a group.
fn numeric_char(groups: &[u32], i: usize) -> u8
    requires { i < 5 * length groups.now }
    ensures { result ≡ char_heard Numeric groups.now i }
{
    numeric_byte(turned_bits(groups[i / 5] >> (16 - 4 * (i % 5))))
}

// The length of a numeric text: back over the trailing spaces.
#[tactic(auto, using(crate::proofs::HeardLaws::numeric_stop))]
fn numeric_length(groups: &[u32]) -> usize
    ensures { result ≡ length (heard_text Numeric groups.now) }
{
    for i in (0..5 * groups.len()).rev() {
        if numeric_char(groups, i) != b' ' {
            return i + 1;
        }
    }
    0
}

// Writes the numeric text of groups as pairs of digits, and answers how many digits they are.
// By index: after `chunks_exact_mut` a proof has only the length.
fn write_numeric(groups: &[u32], digits: &mut [u8]) -> usize
    requires { 10 * length groups.now ≤ length digits.old }
    ensures value { result ≡ length (heard_digits Numeric groups.now) }
    ensures digits_after { digits.new ≡ over digits.old (heard_digits Numeric groups.now) }
{
    let n = numeric_length(groups);
    for i in 0..n {
        let b = u32::from(numeric_char(groups, i));
        digits[2 * i] = base::hex_digit(b / 16);
        digits[2 * i + 1] = base::hex_digit(b);
    }
    2 * n
}

// The same bits, and behind them those of the next group where there are fewer than a character's seven and a group is left.
fn more(b: Bits, groups: &[u32]) -> Bits
    ensures { More groups.now b result }
{
    if 7 <= b.have {
        return b;
    }
    let next = b.next;
    if groups.len() <= next {
        return b;
    }
    Bits {
        window: b.window % 128 * 1048576 + u64::from(groups[next] % 1048576),
        have: b.have + 20,
        next: next + 1,
    }
}

// Whether the seven bits of a character, the lowest first, are those of 0, 3 or 4, which end an alphanumeric text.
fn ends_text(bits: u32) -> bool
    requires { bits < 128 }
    ensures { result ≡ ends (turned_of 7 bits) }
{
    matches!(bits, 0 | 16 | 96)
}

// Writes the alphanumeric text of groups as pairs of digits, and answers how many digits they are. A loop of its own, for one pass: it
// finds its end on the way. A `for` over the whole characters has one test more a turn: tried, 5 in 100 instructions more for a text
// there and back (callgrind).
fn write_alphanumeric(groups: &[u32], digits: &mut [u8]) -> usize
    requires { 10 * length groups.now ≤ length digits.old }
    ensures value { result ≡ length (heard_digits Alphanumeric groups.now) }
    ensures digits_after { digits.new ≡ over digits.old (heard_digits Alphanumeric groups.now) }
{
    let mut b = NO_BITS;
    let mut i = 0;
    loop {
        b = more(b, groups);
        if b.have < 7 {
            return 2 * i;
        }
        b.have -= 7;
        let bits = ((b.window >> b.have) % 128) as u32;
        if ends_text(bits) {
            return 2 * i;
        }
        digits[2 * i] = bits_digit(bits % 8 * 2);
        digits[2 * i + 1] = bits_digit(bits / 8);
        i += 1;
    }
}

// Writes the text of groups as pairs of digits over the front of the slice. It asks for ten digits a group, the most that a group's five
// characters take, whatever the text is. The number of digits written, or none where there is no room: then nothing is written.
pub fn write_heard(c: Coding, groups: &[u32], digits: &mut [u8]) -> Option<usize>
    ensures value { result ≡ heard_into c groups.now (length digits.old) }
    ensures digits_after { digits.new ≡ over digits.old (take (count_of result) (heard_digits c groups.now)) }
{
    if digits.len() / 10 < groups.len() {
        return None;
    }
    match c {
        Coding::Numeric => Some(write_numeric(groups, digits)),
        Coding::Alphanumeric => Some(write_alphanumeric(groups, digits)),
    }
}
