// The radio's bits to page lines and a report (document 02, R-10).
#![tactic(auto)]

ghost use Rattle.std.specs.Prelude.{◌≡◌, ◌+◌, ◌*◌, ◌≤◌, ◌<◌, length, get_or, take};
ghost use Rattle.base.specs.Lists.{over, tab};
ghost use Rattle.reader.specs.Lines.{lines_heard};
ghost use Rattle.receiver.specs.Bits.{bit_count, bit_at, word_from};
ghost use Rattle.receiver.specs.Stretches.{hunt_from, batches_from, stretch_at};
ghost use Rattle.receiver.specs.Answers.{heard_on, nothing, totals_of, receive_bits, lines_received, totals_received, number_of};
ghost use Rattle.receiver.specs.Progress.{Ahead, Addable, added};

use codeword::Engine;
use reader::Changes;

// Why a recording is declined.
#[derive(Clone, Copy)]
pub enum Refusal {
    // Number 28: it has over 65,536 bytes.
    TooLong,
    // Number 23: a 301st batch is found.
    TooMany,
    // Number 10: the lent slice is shorter than the lines.
    NoRoom,
}

// The report: how many batches there are; the pages, lost words and orphans, and the changed bits, as the reader counts them; and how
// many bytes of page lines are written.
#[derive(Clone, Copy)]
pub struct Totals {
    pub batches: u32,
    pub pages: u32,
    pub lost: u32,
    pub orphans: u32,
    pub changed: Changes,
    pub bytes: usize,
}

impl Totals {
    // Two reports as one.
    fn add(self, more: Totals) -> Totals
        requires { Addable self more }
        ensures { result ≡ added self more }
    {
        Totals {
            batches: self.batches + more.batches,
            pages: self.pages + more.pages,
            lost: self.lost + more.lost,
            orphans: self.orphans + more.orphans,
            changed: Changes {
                slots: self.changed.slots + more.changed.slots,
                syncs: self.changed.syncs + more.changed.syncs,
            },
            bytes: self.bytes + more.bytes,
        }
    }
}

// The report on nothing.
const NOTHING: Totals = Totals {
    batches: 0,
    pages: 0,
    lost: 0,
    orphans: 0,
    changed: Changes { slots: 0, syncs: 0 },
    bytes: 0,
};

// The bit at a position.
fn bit(bits: &[u8], p: usize) -> u32
    requires { p < bit_count bits.now }
    ensures { result ≡ bit_at bits.now p }
{
    let behind = (7 - p % 8) as u32;
    (u32::from(bits[p / 8]) >> behind) % 2
}

// The four bytes from byte i on as one number, the first on top.
fn four_bytes(bits: &[u8], i: usize) -> u32
    requires { i + 4 ≤ length bits.now }
    ensures { result ≡ word_from bits.now (8 * i) }
{
    u32::from_be_bytes([bits[i], bits[i + 1], bits[i + 2], bits[i + 3]])
}

// The 32 bits from a position on: of the five bytes that may hold them the first four, moved up, and the top of the fifth.
fn word_from(bits: &[u8], p: usize) -> u32
    requires { p + 32 ≤ bit_count bits.now }
    ensures { result ≡ word_from bits.now p }
{
    let i = p / 8;
    let up = (p % 8) as u32;
    let front = four_bytes(bits, i);
    if up == 0 {
        return front;
    }
    (front << up) + (u32::from(bits[i + 4]) >> (8 - up))
}

// The hunt from position p on: one bit more is shifted in for each position.
fn hunt(bits: &[u8], p: usize) -> usize
    requires { (length bits.now ≤ 65536) × (p ≤ bit_count bits.now) }
    ensures { result ≡ hunt_from bits.now p }
{
    let n = 8 * bits.len();
    if n < p + 544 {
        return n;
    }
    let mut w = word_from(bits, p);
    for q in p..=n - 544 {
        if reader::is_sync(w) {
            return q;
        }
        w = w % 0x8000_0000 * 2 + bit(bits, q + 32);
    }
    n
}

// How many batches stand one directly behind the other from position p on.
fn count_batches(bits: &[u8], p: usize) -> usize
    requires { (length bits.now ≤ 65536) × (p ≤ bit_count bits.now) }
    ensures { result ≡ batches_from bits.now p }
{
    let most = (8 * bits.len() - p) / 544;
    for b in 0..most {
        if !reader::is_sync(word_from(bits, p + 544 * b)) {
            return b;
        }
    }
    most
}

// Fills a slice with the words from position p on.
fn fill_words(bits: &[u8], p: usize, words: &mut [u32])
    requires { (length bits.now ≤ 65536) × (p + 32 * length words.old ≤ bit_count bits.now) }
    ensures { words.new ≡ tab (λ k. word_from bits.now (p + 32 * k)) (length words.old) }
{
    for (k, word) in words.iter_mut().enumerate() {
        *word = word_from(bits, p + 32 * k);
    }
}

// Reads the stretch of b batches at position p, with room lent for its words: its lines go over the front of the bytes. All its batches
// begin with sync and there is room, so the reader declines nothing.
fn read_stretch(bits: &[u8], p: usize, b: usize, words: &mut [u32], out: &mut [u8]) -> Totals
    requires { Ahead bits.now p b (length words.old) (length out.old) }
    ensures value { result ≡ totals_of b (heard_on bits.now (stretch_at bits.now p)) }
    ensures out_after { out.new ≡ over out.old (lines_heard (heard_on bits.now (stretch_at bits.now p)).pages) }
{
    let n = 17 * b;
    fill_words(bits, p, &mut words[..n]);
    let cut = p + 544 * b + 544 <= 8 * bits.len();
    let Ok(read) = reader::read_stretch(Engine::Fast, &words[..n], cut, out) else {
        return NOTHING;
    };
    Totals {
        batches: b as u32,
        pages: read.pages,
        lost: read.lost,
        orphans: read.orphans,
        changed: read.changed,
        bytes: read.bytes,
    }
}

// Receives a recording: the lines of its pages go over the front of the lent lines, for which there is room. The words are room for
// those of a stretch, which is lent once, since to clear it would take longer than to read a short one.
#[tactic(auto, using(crate::proofs::SoFar::too_many, crate::proofs::SoFar::none_written))]
fn receive_all(bits: &[u8], words: &mut [u32], lines: &mut [u8]) -> Result<Totals, Refusal>
    requires { (length bits.now ≤ 65536) × (5100 ≤ length words.old) × (48300 ≤ length lines.old) }
    ensures value { result ≡ receive_bits bits.now (length lines.old) }
    ensures lines_after { take (totals_received result).bytes lines.new ≡ lines_received result bits.now }
{
    let mut t = NOTHING;
    let mut p = 0;
    // A walk by a variable step, from stretch to stretch: no index of a range is counted.
    loop {
        let q = hunt(bits, p);
        let b = count_batches(bits, q);
        if b == 0 {
            return Ok(t);
        }
        if 300 < t.batches as usize + b {
            return Err(Refusal::TooMany);
        }
        let at = t.bytes;
        let more = read_stretch(bits, q, b, words, &mut lines[at..]);
        t = t.add(more);
        p = q + 544 * b;
    }
}

// Receives a recording's bits, eight to a byte, the first on top: the lines of the pages go to the front of the bytes, and what stands
// behind them keeps its value.
#[tactic(auto, using(crate::proofs::RoomLaws::too_long))]
pub fn receive(bits: &[u8], out: &mut [u8]) -> Result<Totals, Refusal>
    ensures value { result ≡ receive_bits bits.now (length out.old) }
    ensures out_after { out.new ≡ over out.old (lines_received result bits.now) }
{
    if 65536 < bits.len() {
        return Err(Refusal::TooLong);
    }
    // Room for the words and the lines of 300 batches: ten bytes a slot, and one more for each page that a failed test cuts short.
    let mut words = [0u32; 5100];
    let mut lines = [0u8; 48300];
    let t = receive_all(bits, &mut words, &mut lines)?;
    let n = t.bytes;
    if out.len() < n {
        return Err(Refusal::NoRoom);
    }
    out[..n].copy_from_slice(&lines[..n]);
    Ok(t)
}

// The number of an answer; 0 where nothing is declined. Its place is always 0.
pub fn number(r: Result<Totals, Refusal>) -> u32
    ensures { result ≡ number_of r }
{
    let Err(why) = r else { return 0 };
    match why {
        Refusal::TooLong => 28,
        Refusal::TooMany => 23,
        Refusal::NoRoom => 10,
    }
}

// The report of an answer: all zero where the recording is declined.
pub fn report(r: Result<Totals, Refusal>) -> Totals
    ensures { result ≡ totals_received r }
{
    r.unwrap_or(NOTHING)
}
