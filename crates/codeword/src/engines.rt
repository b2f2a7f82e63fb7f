// The two engines that correct a received word, and that they agree (R-14).
ghost use Rattle.std.specs.Prelude.{◌≡◌};
ghost use Rattle.codeword.specs.Answer.{answer};
ghost use Rattle.codeword.specs.Nearest.{nearest};

use super::{Corrected, correct, correct_slowly};

// Which engine corrects. No closure in its place: each contract that takes one would have to say what the closure returns.
#[derive(Clone, Copy, Debug, PartialEq, Eq)]
pub enum Engine {
    // `correct`: by checks and parity.
    Fast,
    // `correct_slowly`: by trying.
    Slow,
}

// What `correct` and `correct_slowly` return for a word.
#[derive(Clone, Copy, Debug, PartialEq, Eq)]
pub struct Both {
    pub fast: Option<Corrected>,
    pub slow: Option<Corrected>,
}

// A received word corrected by an engine.
pub fn correct_by(engine: Engine, word: u32) -> Option<Corrected>
    ensures { result ≡ answer word (nearest word) }
{
    match engine {
        Engine::Fast => correct(word),
        Engine::Slow => correct_slowly(word),
    }
}

// The engines agree: for every word of 32 bits `correct` and `correct_slowly` return the same codeword with the same count, or both refuse.
pub fn engines_agree(word: u32) -> Both
    ensures fast_value { result.fast ≡ result.slow }
    ensures slow_value { result.slow ≡ answer word (nearest word) }
{
    Both {
        fast: correct(word),
        slow: correct_slowly(word),
    }
}
