// The (31,21) code with its parity bit: codewords, and the correction of a received word.
#![tactic(auto)]

ghost use Rattle.std.specs.Prelude.{◌≡◌, ◌/◌, ◌%◌, ◌^◌, ◌<◌, eqb};
ghost use Rattle.codeword.specs.Answer.{answer};
ghost use Rattle.codeword.specs.Code.{remainder, weight, codeword, sync, idle, address_bits, message_bits};
ghost use Rattle.codeword.specs.Nearest.{distance, nearest};
ghost use Rattle.codeword.specs.Places.{checks, wrong_bits};

pub use engines::{Both, Engine, correct_by, engines_agree};
pub use slow::correct_slowly;

mod engines;
mod slow;

// A word of 32 bits that obeys the code: bit 1, sent first, is the top bit.
// No ghost field says that it obeys the code: the definition `answer` builds one from any word.
#[derive(Clone, Copy, Debug, PartialEq, Eq)]
pub struct Codeword(u32);

impl Codeword {
    pub const SYNC: Codeword = Codeword(0x7CD2_15D8);

    pub const IDLE: Codeword = Codeword(0x7A89_C197);

    // The address codeword of an identity's upper 18 bits and a function. Bits beyond the
    // identity's 21 and the function's 2 are dropped.
    pub fn address(identity: u32, function: u32) -> Codeword
        ensures { result.0 ≡ codeword (address_bits identity function) }
    {
        Codeword(encode(identity / 8 % 262144 * 4 + function % 4))
    }

    // The message codeword of 20 bits: bits beyond these are dropped.
    pub fn message(bits: u32) -> Codeword
        ensures { result.0 ≡ codeword (message_bits bits) }
    {
        Codeword(encode(1048576 + bits % 1048576))
    }

    // The codeword as a number.
    pub fn word(self) -> u32
        ensures { result ≡ self.0 }
    {
        self.0
    }

    // Whether this is the idle codeword.
    pub fn is_idle(self) -> bool
        ensures { result ≡ eqb self.0 idle }
    {
        self == Codeword::IDLE
    }
}

// What a received word is corrected to.
#[derive(Clone, Copy, Debug, PartialEq, Eq)]
pub struct Corrected {
    // The one codeword at most two bits away.
    pub codeword: Codeword,
    // How many bits are changed: 0, 1 or 2.
    pub changed: u32,
}

// A received word corrected, by the fast engine. `None`, number 20, where no codeword is at most two bits away. Inlined, as the slow one
// is: what `correct_by` answers would else be written to memory as two numbers and read back as one, for which a processor waits.
#[inline(always)]
pub fn correct(word: u32) -> Option<Corrected>
    ensures { result ≡ answer word (nearest word) }
{
    let checks = checks(word);
    let odd = parity(word);
    // None of bits 1 to 31 is wrong: where the parity is odd, bit 32 is.
    if checks == 0 {
        return Some(Corrected {
            codeword: Codeword(word ^ odd),
            changed: odd,
        });
    }
    let wrong = wrong_bits(checks);
    if wrong == 0 {
        return None;
    }
    // One wrong bit makes the parity odd, two make it even. Otherwise bit 32 is wrong too, and beside two others it is a third.
    let one = u32::from(wrong & (wrong - 1) == 0);
    if one < odd {
        return None;
    }
    let bit_32 = one ^ odd;
    // Some bit is wrong, and no third: where the parity is odd it is one, where it is even they are two.
    let changed = 2 - odd;
    Some(Corrected {
        codeword: Codeword(word ^ wrong ^ bit_32),
        changed,
    })
}

// In how many bits a word and sync differ. The word corrects to sync exactly if they are at most two.
pub fn sync_distance(word: u32) -> u32
    ensures { result ≡ distance word sync }
{
    (word ^ Codeword::SYNC.0).count_ones()
}

// The codeword of 21 information bits.
fn encode(information: u32) -> u32
    requires { information < 2 ^ 21 }
    ensures { result ≡ codeword information }
{
    let shifted = information * 1024;
    let checked = shifted + remainder(shifted);
    checked * 2 + parity(checked)
}

// The remainder of a polynomial of 31 coefficients, the coefficient of x^30 first. The divisor g
// divides x^31 + 1, and the quotient h of these is (x^5 + x^3 + 1) (x^16 + x^15 + x^14 + x^12 + x^8 + 1):
// so the quotient of p by g is p h without its last 31 coefficients. Below x^10, g is
// (x^3 + 1) (x^6 + x^5 + 1).
fn remainder(polynomial: u32) -> u32
    ensures { result ≡ remainder 31 polynomial }
{
    let p = u64::from(polynomial % 0x8000_0000);
    let t = p ^ (p << 3) ^ (p << 5);
    let q = (t >> 15) ^ (t >> 16) ^ (t >> 17) ^ (t >> 19) ^ (t >> 23) ^ (t >> 31);
    let v = q ^ (q << 3);
    ((p ^ v ^ (v << 5) ^ (v << 6)) % 1024) as u32
}

// 1 where the number of ones of a word is odd. A number and no bool: it is added and xored.
fn parity(word: u32) -> u32
    ensures { result ≡ weight word % 2 }
{
    word.count_ones() % 2
}

// The checks of a word's first 31 bits, the polynomial p. Bit i is the coefficient of x^(i + 21) of p h, with h as in `remainder` and
// x^31 counted as 1: the same sum of coefficients of p for each i, with p turned by i places. All are 0 exactly if the divisor divides
// p. With p twice over, a shift turns it.
fn checks(word: u32) -> u64
    ensures { result ≡ checks (word / 2) }
{
    let p = u64::from(word / 2);
    let twice = p ^ (p << 31);
    let part = twice ^ (twice >> 2) ^ (twice >> 5);
    (part ^ (part >> 1) ^ (part >> 2) ^ (part >> 4) ^ (part >> 8) ^ (part >> 16)) % 0x200_0000_0000
}

// The wrong ones of bits 1 to 31 where they are one or two; no bit where they are more. The checks are not all 0.
// 0 and no Option where they are more: the formula gives it.
//
// In the field of 32 elements let a be a root of x^5 + x^2 + 1; a^3 is then a root of the divisor's other factor, which is
// x^5 + x^4 + x^3 + x^2 + 1. Let s and t be the values of p at a and a^3. A codeword has 0 and 0, so s and t are the values of the
// wrong bits alone. For a place i let u = s / a^i and r = t / a^3i. If x^i is wrong, alone or with x^j, then u = 1 + b and r = 1 + b^3,
// where b is 0 or a^(j - i): so r + u^3 = u^2 + u. If that holds, take b = u + 1, which is not 1, or s and t would be 0: x^i alone, or
// with the x^j that b names, has the values s and t, and at most one such error has. So x^i is wrong exactly if r + u^3 = u^2 + u.
//
// All places are tried at once. Turned by a place, p has the values s / a and t / a^3: so bit i of the checks is a linear function of
// u and r, the same for each i. The sum of bits i to i + 3 and i + 5 of the checks, the other factor read backwards, has no r: bit i of
// v is a linear function of u, and bit i of v >> k is another one for each k below 31. The two products of these are, but for a linear
// function of u, the function of u^3 that the checks have of r. So bit i of c is a linear function of r + u^3 but for one of u, and five
// bits of c in a row, from i on, tell r + u^3 where u is known. Each is compared with what it is where r + u^3 = u^2 + u: a linear
// function of u, so a bit of v, and for the third of them 0.
fn wrong_bits(checks: u64) -> u32
    ensures { result ≡ wrong_bits checks }
{
    let sum = checks ^ (checks >> 1);
    let once = (sum ^ (sum >> 2) ^ (checks >> 5)) % 0x8000_0000;
    let v = once ^ (once << 31);
    let c = checks ^ (v & (v >> 10)) ^ ((v >> 24) & (v >> 27));
    let right = (c ^ (v >> 2))
        | ((c >> 1) ^ (v >> 10))
        | (c >> 2)
        | ((c >> 3) ^ (v >> 24))
        | ((c >> 4) ^ (v >> 13));
    ((right % 0x8000_0000 * 2) as u32) ^ 0xFFFF_FFFE
}
