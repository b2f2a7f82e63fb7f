// A month of listings in numbers (document 02, R-12): for each frame and for sync the words read unchanged and mended, for each frame the
// lost ones and the pages, whole and cut, and the listings that are refused.
#![tactic(auto)]

ghost use Rattle.std.specs.Prelude.{◌≡◌, false, ◌+◌, ◌*◌, ◌/◌, ◌≤◌, ◌<◌, length, replicate, IfSome, Ok};
ghost use Rattle.codeword.specs.Answer.{changed};
ghost use Rattle.reader.specs.Answers.{judge_decoded};
ghost use Rattle.reader.specs.Reading.{heard_in};
ghost use Rattle.reader.specs.Readable.{Readable, batches_first, Decoding};
ghost use Rattle.coverage.specs.Tally.{class_by, frame_counts, sync_counts, page_counts};
ghost use Rattle.coverage.specs.Report.{no_coverage, sums, joined, of_batches, of_fault, of_verdict, coverage_of, any_over, is_over, added_to, number_of, place_of};
ghost use Rattle.coverage.specs.Rates.{per_million, rate_of};
ghost use Rattle.coverage.specs.Progress.{slot_read, UpTo, closed_counts, heard_counts, open_after};

use codeword::Corrected;
use listing::Shape;
use reader::{Fault, Meaning};

// What listings add up to. Every pattern of its 220 bytes is a value.
#[repr(C)]
#[derive(Clone, Copy)]
pub struct Coverage {
    // How many listings there were, refused ones among them.
    pub listings: u32,
    // How many were refused with number 21, 22 and 23.
    pub refused: [u32; 3],
    // The slots' words of frame f and class k at 4 f + k: classes 0 to 2 are the words with so many bits mended, class 3 the lost ones.
    pub frames: [u32; 32],
    // The sync words by class; none is lost.
    pub sync: [u32; 3],
    // The pages with an address in frame f: whole ones at 2 f, cut ones at 2 f + 1.
    pub pages: [u32; 16],
}

// Why a listing isn't added.
#[derive(Clone, Copy, Debug, PartialEq, Eq)]
pub enum AddError {
    // Number 11: over 1,000 listings, or a count over 600 times the listings.
    OverLimit,
    // Number 23: there are 1,000 listings already.
    Full,
}

// Whether a listing is added, and the report then.
#[derive(Clone, Copy)]
pub struct Covered {
    pub answer: Result<(), AddError>,
    pub coverage: Coverage,
}

// Mended bits per million received, rounded down, and the remainder of that division.
#[repr(C)]
#[derive(Clone, Copy)]
pub struct Rate {
    pub rate: u64,
    pub remainder: u64,
}

// A slot's word once it is read: its class, and what it says.
#[derive(Clone, Copy)]
struct SlotWord {
    class: u32,
    says: Meaning,
}

// The report of no listing.
pub fn empty() -> Coverage
    ensures { result ≡ no_coverage }
{
    Coverage {
        listings: 0,
        refused: [0u32; 3],
        frames: [0u32; 32],
        sync: [0u32; 3],
        pages: [0u32; 16],
    }
}

// The class of a word that says this and has so many changed bits.
// The class of a lost word is a number too: it is an index into the four counts of a frame, which the report for C has.
fn class_by(says: Meaning, changed: u32) -> u32
    ensures { result ≡ class_by says changed }
{
    match says {
        Meaning::Lost => 3,
        Meaning::Idle => changed,
        Meaning::Address(_, _) => changed,
        Meaning::Message(_) => changed,
    }
}

// Reads a slot's word.
fn read_slot(word: u32) -> SlotWord
    ensures { result ≡ slot_read word }
{
    let Some(Corrected { codeword, changed }) = codeword::correct(word) else {
        return SlotWord {
            class: 3,
            says: Meaning::Lost,
        };
    };
    let says = reader::codeword_meaning(codeword);
    let class = class_by(says, changed);
    SlotWord { class, says }
}

// Counts the open page, if any, as whole or cut, in its frame.
fn close(held: Option<usize>, cut: bool, pages: &mut [u32])
    requires held_bound { IfSome held (λ frame. frame < 8) }
    requires up_to { UpTo 16 4800 pages.old }
    ensures { pages.new ≡ closed_counts pages.old held cut }
{
    if let Some(frame) = held {
        pages[2 * frame + cut as usize] += 1;
    }
}

// Hears a word of a frame: a page that it closes is counted. Answers the frame of the page that is then open.
fn hear(held: Option<usize>, frame: usize, says: Meaning, pages: &mut [u32]) -> Option<usize>
    requires held_bound { IfSome held (λ frame. frame < 8) }
    requires up_to { UpTo 16 4800 pages.old }
    ensures value { result ≡ open_after held frame says }
    ensures pages_after { pages.new ≡ heard_counts pages.old held says }
{
    match says {
        Meaning::Lost => {
            close(held, true, pages);
            None
        }
        Meaning::Idle => {
            close(held, false, pages);
            None
        }
        Meaning::Address(_, _) => {
            close(held, false, pages);
            Some(frame)
        }
        Meaning::Message(_) => held,
    }
}

// Counts the slots' words of whole batches, 300 at most, and their pages, in counts that are all zero.
fn count_slots(words: &[u32], frames: &mut [u32], pages: &mut [u32])
    requires words_len_bound { length words.now ≤ 5100 }
    requires frames_value { (frames.old ≡ replicate 32 0) × (pages.old ≡ replicate 16 0) }
    ensures frames_after { frames.new ≡ frame_counts words.now }
    ensures pages_after { pages.new ≡ page_counts (heard_in words.now).pages }
{
    let slots = 16 * (words.len() / 17);
    let mut held = None;
    for s in 0..slots {
        let w = read_slot(words[17 * (s / 16) + 1 + s % 16]);
        let frame = s % 16 / 2;
        let at = 4 * frame + w.class as usize;
        let says = w.says;
        frames[at] += 1;
        held = hear(held, frame, says, pages);
    }
    close(held, false, pages);
}

// Counts the sync words of whole batches, 300 at most, that all begin with sync, in counts that are all zero.
fn count_syncs(words: &[u32], sync: &mut [u32])
    requires readable { Readable words.now }
    requires sync_value { sync.old ≡ replicate 3 0 }
    ensures { sync.new ≡ sync_counts words.now }
{
    let batches = words.len() / 17;
    for q in 0..batches {
        let at = codeword::sync_distance(words[17 * q]) as usize;
        sync[at] += 1;
    }
}

// The report of whole batches that can be read.
fn cover_batches(words: &[u32]) -> Coverage
    requires { Readable words.now }
    ensures { result ≡ of_batches words.now }
{
    let mut frames = [0u32; 32];
    let mut sync = [0u32; 3];
    let mut pages = [0u32; 16];
    count_slots(words, &mut frames, &mut pages);
    count_syncs(words, &mut sync);
    Coverage {
        listings: 1,
        refused: [0u32; 3],
        frames,
        sync,
        pages,
    }
}

// The report of a listing with a fault.
fn cover_fault(why: Fault) -> Coverage
    ensures { result ≡ of_fault why }
{
    let mut c = empty();
    c.listings = 1;
    match why {
        Fault::Malformed(_) => {
            c.refused[0] = 1;
        }
        Fault::Unsynced(_) => {
            c.refused[1] = 1;
        }
        Fault::TooMany(_) => {
            c.refused[2] = 1;
        }
    }
    c
}

// The report of words by their verdict.
fn cover_judged(v: Result<(), Fault>, words: &[u32]) -> Coverage
    requires { v ≡ Ok tt → Readable words.now }
    ensures { result ≡ of_verdict v words.now }
{
    match v {
        Ok(_) => cover_batches(words),
        Err(why) => cover_fault(why),
    }
}

// The report of what `listing::decode` answers: of the words that it returns those of the batches stand first.
fn cover_decoded(l: Result<Shape, listing::Fault>, words: &[u32]) -> Coverage
    requires { Decoding l words.now }
    ensures { result ≡ of_verdict (judge_decoded l (batches_first l words.now)) (batches_first l words.now) }
{
    let n = 17 * listing::batch_count(l);
    let v = reader::judge_decoded(l, &words[..n]);
    cover_judged(v, &words[..n])
}

// The report of a single listing.
fn cover_listing(listing: &[u8]) -> Coverage
    ensures { result ≡ coverage_of listing.now }
{
    let decoded = listing::decode(listing);
    cover_decoded(decoded.listing, &decoded.words)
}

// Whether one of the counts is over the limit.
fn any_over(counts: &[u32], limit: u32) -> bool
    ensures { result ≡ any_over limit counts.now }
{
    counts.iter().any(|n| limit < *n)
}

// Whether a report has over 1,000 listings, or a count over 600 times its listings.
fn is_over(c: Coverage) -> bool
    ensures { result ≡ is_over c }
{
    if 1000 < c.listings {
        return true;
    }
    let limit = 600 * c.listings;
    if any_over(&c.refused, limit) {
        return true;
    }
    if any_over(&c.frames, limit) {
        return true;
    }
    if any_over(&c.sync, limit) {
        return true;
    }
    any_over(&c.pages, limit)
}

// Adds to each count that of another report.
fn add_counts(counts: &mut [u32], more: &[u32])
    requires up_to { UpTo (length counts.old) 600 more.now }
    requires up_to_2 { UpTo (length counts.old) 600000 counts.old }
    ensures { counts.new ≡ sums counts.old more.now }
{
    for (i, n) in more.iter().enumerate() {
        counts[i] += *n;
    }
}

// A report with one listing more, where it is in its bounds.
fn add_listing(c: Coverage, listing: &[u8]) -> Coverage
    requires { is_over c ≡ false }
    ensures { result ≡ joined c (coverage_of listing.now) }
{
    let more = cover_listing(listing);
    let mut sum = c;
    sum.listings += more.listings;
    add_counts(&mut sum.refused, &more.refused);
    add_counts(&mut sum.frames, &more.frames);
    add_counts(&mut sum.sync, &more.sync);
    add_counts(&mut sum.pages, &more.pages);
    sum
}

// Adds a listing to a report: a declined call returns the report as it was.
#[tactic(auto, using(crate::proofs::ReportLaws::added_over, crate::proofs::ReportLaws::added_full, crate::proofs::ReportLaws::added_more))]
pub fn add(c: Coverage, listing: &[u8]) -> Covered
    ensures { result ≡ added_to c listing.now }
{
    if is_over(c) {
        return Covered {
            answer: Err(AddError::OverLimit),
            coverage: c,
        };
    }
    if c.listings == 1000 {
        return Covered {
            answer: Err(AddError::Full),
            coverage: c,
        };
    }
    let next = add_listing(c, listing);
    Covered {
        answer: Ok(()),
        coverage: next,
    }
}

// The number of an answer in the table; 0 where the listing is added.
pub fn number(a: Result<(), AddError>) -> u32
    ensures { result ≡ number_of a }
{
    match a {
        Ok(()) => 0,
        Err(AddError::OverLimit) => 11,
        Err(AddError::Full) => 23,
    }
}

// The place of an answer; 0 where the listing is added.
pub fn place(a: Result<(), AddError>) -> usize
    ensures { result ≡ place_of a }
{
    match a {
        Ok(()) => 0,
        Err(AddError::OverLimit) => 0,
        Err(AddError::Full) => 1001,
    }
}

// So many bits mended per million received.
fn per_million(mended: u64, received: u64) -> Rate
    requires { mended < 17179869184 }
    ensures { result ≡ per_million mended received }
{
    if received == 0 {
        return Rate {
            rate: 0,
            remainder: 0,
        };
    }
    let millions = 1000000 * mended;
    Rate {
        rate: millions / received,
        remainder: millions % received,
    }
}

// The rate of words by their class.
fn class_rate(unchanged: u32, one: u32, two: u32, lost: u32) -> Rate
    ensures { result ≡ per_million (one + 2 * two) (32 * (unchanged + one + two + lost)) }
{
    let mended = one as u64 + 2 * (two as u64);
    let words = unchanged as u64 + one as u64 + two as u64 + lost as u64;
    per_million(mended, 32 * words)
}

// The rate of a frame, in rows 0 to 7, or of sync, in row 8: bits mended per million received. No other row has received any.
pub fn rate_of(c: Coverage, row: u32) -> Rate
    ensures { result ≡ rate_of c row }
{
    let frames = c.frames;
    let sync = c.sync;
    if row < 8 {
        let first = 4 * row as usize;
        return class_rate(
            frames[first],
            frames[first + 1],
            frames[first + 2],
            frames[first + 3],
        );
    }
    if row == 8 {
        return class_rate(sync[0], sync[1], sync[2], 0);
    }
    class_rate(0, 0, 0, 0)
}
