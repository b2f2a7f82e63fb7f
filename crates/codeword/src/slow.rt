// The slow engine (R-14): a received word is corrected by trying, and whether a word obeys the code is found by long division, as on paper.
ghost use Rattle.std.specs.Prelude.{◌≡◌, ◌/◌, ◌≤◌};
ghost use Rattle.codeword.specs.Answer.{answer};
ghost use Rattle.codeword.specs.Code.{remainder, obeys};
ghost use Rattle.codeword.specs.Nearest.{nearest};
ghost use Rattle.codeword.specs.Tried.{tried_codeword};

use super::{Codeword, Corrected, parity};

// Bit 1, which is sent first: the top bit. Bit k + 1 is k places lower.
const BIT_1: u32 = 0x8000_0000;

// x^10 + x^9 + x^8 + x^6 + x^5 + x^3 + 1: a one for each power that is there.
const DIVISOR: u32 = 0b111_0110_1001;

// The received word, else the first word one bit away, else two, that obeys the code, and how many bits that changed. `None` where none of
// them does.
#[inline(always)]
pub fn correct_slowly(word: u32) -> Option<Corrected>
    ensures { result ≡ answer word (nearest word) }
{
    if obeys(word) {
        return Some(Corrected {
            codeword: Codeword(word),
            changed: 0,
        });
    }
    if let Some(codeword) = one_away(word, 32) {
        return Some(Corrected {
            codeword,
            changed: 1,
        });
    }
    let codeword = two_away(word)?;
    Some(Corrected {
        codeword,
        changed: 2,
    })
}

// The first word that obeys the code among those with one of the first n bits flipped.
fn one_away(word: u32, n: u32) -> Option<Codeword>
    requires { n ≤ 32 }
    ensures { result ≡ tried_codeword word n 1 }
{
    for k in 0u32..n {
        let flipped = word ^ (BIT_1 >> k);
        if obeys(flipped) {
            return Some(Codeword(flipped));
        }
    }
    None
}

// The first word that obeys the code among those with two bits flipped: each bit with each of the bits before it, so no pair comes twice.
fn two_away(word: u32) -> Option<Codeword>
    ensures { result ≡ tried_codeword word 32 2 }
{
    for k in 0u32..32 {
        if let Some(codeword) = one_away(word ^ (BIT_1 >> k), k) {
            return Some(codeword);
        }
    }
    None
}

// Whether a word obeys the code. A sender chooses bits 22 to 31 so that nothing is left of bits 1 to 31 after the division, and bit 32 so
// that the number of ones is even.
fn obeys(word: u32) -> bool
    ensures { result ≡ obeys word }
{
    left_over(word) == 0 && parity(word) == 0
}

// What is left of bits 1 to 31 after long division by the divisor. Each in turn, bit k + 1, is brought down behind what is left so far;
// where that has eleven bits, as the divisor has, the divisor is taken away, without borrowing: a bit from a bit leaves 1 where the two
// differ.
fn left_over(word: u32) -> u32
    ensures { result ≡ remainder 31 (word / 2) }
{
    let mut rest: u32 = 0;
    for k in 0u32..31 {
        rest = rest * 2 + (word >> (31 - k)) % 2;
        if 0b100_0000_0000 <= rest {
            rest ^= DIVISOR;
        }
    }
    rest
}
