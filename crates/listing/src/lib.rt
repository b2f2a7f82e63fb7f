// A transmission as text, and the words of such a text (document 01, "Listings and reading").
#![tactic(auto)]

ghost use Rattle.std.specs.Prelude.{◌≡◌, cond, ◌*◌, ◌≤◌, length, drop};
ghost use Rattle.base.specs.Lines.{split};
ghost use Rattle.base.specs.Lists.{over};
ghost use Rattle.listing.specs.Text.{end_of};
ghost use Rattle.listing.specs.Listing.{has_one, preamble_of, is_due, batches, listing_of};
ghost use Rattle.listing.specs.Answers.{number_of, place_of, batches_of, decoded_of};
ghost use Rattle.listing.specs.Writing.{writing_of, after_write};
ghost use Rattle.listing.specs.Scan.{line_from, one_of, two_of, count_if, words_if, words_met, words_decoded};
ghost use Rattle.listing.specs.declared.Fault.TheVariants.{Malformed, TooMany};

// Why a byte string is no listing. A line is counted from 1.
#[derive(Clone, Copy, Debug, PartialEq, Eq)]
pub enum Fault {
    // This line is malformed or has no newline, or the text ends before it.
    Malformed(usize),
    // With this line a 301st batch begins.
    TooMany(usize),
}

// The lines of a well-formed listing.
#[derive(Clone, Copy, Debug, PartialEq, Eq)]
pub struct Shape {
    // So many preamble lines.
    pub preamble: usize,
    // So many batches behind them.
    pub batches: usize,
}

// What a byte string is as a listing, and the words of its batches. Zeros stand behind them, and everywhere where it is declined.
// The answer beside the words and not around them: `decoded_of` says what the array holds of a refused text too; no heap.
#[derive(Clone, Copy)]
pub struct Decoded {
    pub listing: Result<Shape, Fault>,
    pub words: [u32; 5100],
}

// How many batches a listing has; none where it is declined.
pub fn batch_count(l: Result<Shape, Fault>) -> usize
    ensures { result ≡ batches_of l }
{
    l.map_or(0, |shape| shape.batches)
}

// The number of a byte string in the table; 0 where it is a listing: the C interface answers so.
pub fn number(l: Result<Shape, Fault>) -> u32
    ensures { result ≡ number_of l }
{
    match l {
        Ok(_) => 0,
        Err(Fault::Malformed(_)) => 21,
        Err(Fault::TooMany(_)) => 23,
    }
}

// Its place; 0 where it is a listing: the C interface answers so.
pub fn place(l: Result<Shape, Fault>) -> usize
    ensures { result ≡ place_of l }
{
    match l {
        Ok(_) => 0,
        Err(Fault::Malformed(line)) => line,
        Err(Fault::TooMany(line)) => line,
    }
}

// The word of the line that a text begins with, where it has a word alone. Here and in `read_two` the digits come last, so that none is
// read before the line has its form.
fn read_one(s: &[u8]) -> Option<u32>
    ensures { result ≡ one_of (line_from s.now 0) }
{
    if *s.get(8)? != b'\n' {
        return None;
    }
    base::hex_word(&s[..8])
}

// The words of the line that a text begins with, where it has two with a space between.
// One function with `read_one`, for either number, is no plainer: it needs a loop for the form and another for the digits.
fn read_two(s: &[u8]) -> Option<[u32; 2]>
    ensures { result ≡ two_of (line_from s.now 0) }
{
    if *s.get(17)? != b'\n' {
        return None;
    }
    if s[8] != b' ' {
        return None;
    }
    let one = base::hex_word(&s[..8])?;
    let two = base::hex_word(&s[9..17])?;
    Some([one, two])
}

// How many preamble lines a text begins with, counted up to 36.
fn preamble_lines(s: &[u8]) -> usize
    ensures { result ≡ preamble_of (split s.now) }
{
    s.chunks_exact(18)
        .take(36)
        .take_while(|line| read_two(line).is_some())
        .count()
}

// Writes the words of line q of the batches, with which a text begins, and answers how many they are: none where the line has not the
// words that are due.
fn read_line(s: &[u8], q: usize, words: &mut [u32]) -> Option<usize>
    requires { 2 ≤ length words.old }
    ensures value { result ≡ count_if (is_due q (line_from s.now 0)) (line_from s.now 0) }
    ensures words_after { words.new ≡ over words.old (words_if (is_due q (line_from s.now 0)) (line_from s.now 0)) }
{
    if q % 9 == 0 {
        words[0] = read_one(s)?;
        return Some(1);
    }
    let [one, two] = read_two(s)?;
    words[0] = one;
    words[1] = two;
    Some(2)
}

// The fault of a line behind 300 batches, with which a text begins: a 301st batch begins with it, or it is malformed.
fn fault_behind(s: &[u8], line: usize) -> Fault
    ensures { result ≡ cond (has_one (line_from s.now 0)) (TooMany line) (Malformed line) }
{
    match read_one(s) {
        Some(_) => Fault::TooMany(line),
        None => Fault::Malformed(line),
    }
}

// Reads the batches behind p preamble lines, up to the first line that is not right, and writes their words.
#[tactic(auto, using(crate::proofs::BatchLaws::met_full_behind))]
fn read_batches(s: &[u8], p: usize, words: &mut [u32]) -> Result<Shape, Fault>
    requires { (p ≤ 36) × (18 * p ≤ length s.now) × (5100 ≤ length words.old) }
    ensures value { result ≡ batches p 0 (split (drop (18 * p) s.now)) }
    ensures words_after { words.new ≡ over words.old (words_met 0 (split (drop (18 * p) s.now))) }
{
    let mut at = 18 * p;
    let mut k = 0;
    let mut q = 0;
    // A walk: a line's length is known by its number, and it is looked at only if the one before is right.
    while at < s.len() {
        let line = p + q + 1;
        if q == 2700 {
            return Err(fault_behind(&s[at..], line));
        }
        let n = read_line(&s[at..], q, &mut words[k..]).ok_or(Fault::Malformed(line))?;
        at += 9 * n;
        k += n;
        q += 1;
    }
    if q == 0 {
        return Err(Fault::Malformed(p + 1));
    }
    if q % 9 != 0 {
        return Err(Fault::Malformed(p + q + 1));
    }
    Ok(Shape {
        preamble: p,
        batches: q / 9,
    })
}

// Reads a text as a listing. The words of the batches are written over the front of the array as they are read, also those before a
// fault. Each digit is read once.
#[tactic(auto, using(crate::proofs::BatchLaws::listing_short, crate::proofs::BatchLaws::decoded_short))]
fn read_text(s: &[u8], words: &mut [u32; 5100]) -> Result<Shape, Fault>
    ensures value { result ≡ listing_of s.now }
    ensures words_after { words.new ≡ over words.old (words_decoded s.now) }
{
    let p = preamble_lines(s);
    if p < 9 {
        return Err(Fault::Malformed(p + 1));
    }
    read_batches(s, p, words)
}

// A listing's preamble lines and batches with the batches' words, or the fault of the first line that is not right.
pub fn decode(s: &[u8]) -> Decoded
    ensures { result ≡ decoded_of s.now }
{
    let mut words = [0; 5100];
    let listing = read_text(s, &mut words);
    if listing.is_err() {
        words.fill(0);
    }
    Decoded { listing, words }
}

// The byte behind word k: a space where another word follows on its line, otherwise a newline.
#[tactic(auto, unfolding(crate::specs::Text::end_of, crate::specs::Text::opens_frame))]
fn word_end(k: usize) -> u8
    ensures { result ≡ end_of k }
{
    let opens = if k < 18 {
        k % 2 == 0
    } else {
        (k - 18) % 17 % 2 == 1
    };
    if opens { b' ' } else { b'\n' }
}

// Writes the listing of a transmission's words, and answers how many bytes it has; none, which is number 10, where the slice is shorter.
// What stands behind them keeps its value.
pub fn write(words: &[u32], out: &mut [u8]) -> Option<usize>
    ensures value { result ≡ writing_of words.now (length out.old) }
    ensures out_after { out.new ≡ after_write words.now out.old }
{
    if out.len() / 9 < words.len() {
        return None;
    }
    for (k, word) in words.iter().enumerate() {
        // By index: after `chunks_exact_mut` a proof has only the pieces' length.
        let at = 9 * k;
        let stop = at + 8;
        base::write_digits(&mut out[at..stop], *word);
        out[stop] = word_end(k);
    }
    Some(9 * words.len())
}
