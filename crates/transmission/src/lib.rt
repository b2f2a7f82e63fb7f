// A job's words: sending a job into lent slices (document 01, "Placement").
#![tactic(auto)]

ghost use Rattle.std.specs.Prelude.{◌≡◌, Ok, ◌+◌, ◌≤◌, ◌<◌, length};
ghost use Rattle.base.specs.Lists.{over, tab};
ghost use Rattle.job.specs.Line.{kind_sent};
ghost use Rattle.job.specs.Submission.{with_book};
ghost use Rattle.job.specs.Job.{job_of, reading_of};
ghost use Rattle.transmission.specs.Sending.{sending_from, sending_of, sendings_of};
ghost use Rattle.transmission.specs.Transmission.{transmission_of};
ghost use Rattle.transmission.specs.Transmitted.{slot_index};
ghost use Rattle.transmission.specs.Report.{sent_into, report_of, words_sent, slots_sent, number_of, place_of, position_of};
ghost use Rattle.transmission.specs.declared.SendError.TheVariants.{Job};
ghost use Rattle.transmission.specs.Writing.{Planned, blank_at, with_sending};

use codeword::Codeword;
use job::{Page, Pages, Refused};

// A word of the preamble.
const PREAMBLE: u32 = 0xAAAA_AAAA;

// A job that is sent: the number of batches, and of words: 18 plus 17 a batch.
#[derive(Clone, Copy, Debug, PartialEq, Eq)]
pub struct Sent {
    pub batches: u32,
    pub words: u32,
}

// Why a job is not sent.
#[derive(Clone, Copy, PartialEq, Eq)]
pub enum SendError {
    // The job's own refusal, with its place.
    Job(Refused),
    // A lent slice is shorter than the answer: number 10.
    NoRoom,
}

impl From<Refused> for SendError {
    ghost from_gives = { λ r e. e ≡ Job r };

    fn from(refusal: Refused) -> SendError {
        SendError::Job(refusal)
    }
}

// The number of a report in the table; 0 where the job is sent.
pub fn number(r: Result<Sent, SendError>) -> u32
    ensures { result ≡ number_of r }
{
    match r {
        Ok(_) => 0,
        Err(SendError::Job(refusal)) => job::number(Err(refusal)),
        Err(SendError::NoRoom) => 10,
    }
}

// The place of a report; 0 where the job is sent.
pub fn place(r: Result<Sent, SendError>) -> usize
    ensures { result ≡ place_of r }
{
    match r {
        Ok(_) => 0,
        Err(SendError::Job(refusal)) => refusal.place,
        Err(SendError::NoRoom) => 0,
    }
}

// The second place of a report; 0 where the job is sent.
pub fn position(r: Result<Sent, SendError>) -> usize
    ensures { result ≡ position_of r }
{
    match r {
        Ok(_) => 0,
        Err(SendError::Job(refusal)) => job::position(Err(refusal)),
        Err(SendError::NoRoom) => 0,
    }
}

// Word k of a transmission whose slots are all idle.
#[tactic(auto, unfolding(crate::specs::Writing::blank_at))]
fn blank_word(k: usize) -> u32
    ensures { result ≡ blank_at k }
{
    if k < 18 {
        PREAMBLE
    } else if (k - 18) % 17 == 0 {
        Codeword::SYNC.word()
    } else {
        Codeword::IDLE.word()
    }
}

// Preamble, sync and idle over a whole slice.
fn write_blank(words: &mut [u32])
    ensures { words.new ≡ tab blank_at (length words.old) }
{
    for (k, word) in words.iter_mut().enumerate() {
        *word = blank_word(k);
    }
}

// The index of a slot's word.
fn slot_index(slot: u32) -> usize
    ensures { result ≡ slot_index slot }
{
    let s = slot as usize;
    19 + 17 * (s / 16) + s % 16
}

// An address codeword at its slot, and a message codeword for each group directly behind.
fn write_sending(identity: u32, function: u32, groups: &[u32], slot: u32, words: &mut [u32])
    requires groups_len_bound { (length groups.now ≤ 84) × (slot < 4800) }
    requires groups_in_bounds { slot_index (slot + length groups.now) < length words.old }
    ensures { words.new ≡ with_sending (record { identity = identity; function = function; groups = groups.now }) slot words.old }
{
    words[slot_index(slot)] = Codeword::address(identity, function).word();
    for (j, bits) in groups.iter().enumerate() {
        words[slot_index(slot + 1 + j as u32)] = Codeword::message(*bits).word();
    }
}

// A page's address codeword at its slot, and its message codewords directly behind.
fn write_page<'a>(
    job: &'a [u8],
    book: &'a [u8],
    page: Page,
    groups: u32,
    slot: u32,
    words: &mut [u32],
)
    requires groups_value { groups ≡ length (sending_of (with_book job.now book.now) page).groups }
    requires groups_bound { (groups ≤ 84) × (slot < 4800) }
    requires groups_in_bounds { slot_index (slot + groups) < length words.old }
    ensures { words.new ≡ with_sending (sending_of (with_book job.now book.now) page) slot words.old }
{
    let n = groups as usize;
    let mut packed = [0u32; 84];
    let text = job::page_text(job, book, page);
    job::write_groups(page.kind, text, &mut packed[..n]);
    write_sending(
        page.identity,
        job::function(page.kind),
        &packed[..n],
        slot,
        words,
    );
}

// The transmission of a job's n pages over a slice of just its length, by each page's number of groups and its slot.
fn write_pages<'a>(
    job: &'a [u8],
    book: &'a [u8],
    read: Pages,
    n: usize,
    groups: &[u32],
    places: &[u32; 48],
    words: &mut [u32],
)
    requires read_value { read ≡ reading_of (with_book job.now book.now) }
    requires book_value { job_of (with_book job.now book.now) ≡ Ok n }
    requires planned { Planned (sendings_of (with_book job.now book.now)) groups.now places.now (length words.old) }
    ensures { words.new ≡ transmission_of (sendings_of (with_book job.now book.now)) }
{
    write_blank(words);
    // By index: over a slice's iterator an edit that writes no page was refused for the slice's form, and not for what the words are.
    for i in 0..n {
        write_page(job, book, read.pages[i], groups[i], places[i], words);
    }
}

// The n pages of an accepted job into the two slices, or number 10. A page's frame is its identity's low three bits. Nothing is written
// before both slices have room.
fn send_pages<'a>(
    job: &'a [u8],
    book: &'a [u8],
    read: Pages,
    n: usize,
    words: &mut [u32],
    slots: &mut [u32],
) -> Result<Sent, SendError>
    requires read_value { read ≡ reading_of (with_book job.now book.now) }
    requires book_value { job_of (with_book job.now book.now) ≡ Ok n }
    ensures value { result ≡ sent_into (sendings_of (with_book job.now book.now)) (length words.old) (length slots.old) }
    ensures words_after { words.new ≡ over words.old (words_sent result (sendings_of (with_book job.now book.now))) }
    ensures slots_after { slots.new ≡ over slots.old (slots_sent result (sendings_of (with_book job.now book.now))) }
{
    // Arrays of 48 and the number n: fixed memory, and `placement::place` takes the two lists.
    let mut frames = [0u8; 48];
    let mut groups = [0u32; 48];
    for (k, page) in read.pages[..n].iter().enumerate() {
        frames[k] = (page.identity % 8) as u8;
        groups[k] = job::groups(page.kind, page.length as u16) as u32;
    }
    let mut places = [0u32; 48];
    let batches = placement::place(&frames[..n], &groups[..n], &mut places).unwrap();
    let count = 18 + 17 * batches;
    let room = count as usize;
    // A test with a name, and one more behind it: an edit of it keeps its goal's name, so that it is refused for the fact.
    let short = words.len() < room;
    if short {
        return Err(SendError::NoRoom);
    }
    if slots.len() < n {
        return Err(SendError::NoRoom);
    }
    write_pages(
        job,
        book,
        read,
        n,
        &groups[..n],
        &places,
        &mut words[..room],
    );
    slots[..n].copy_from_slice(&places[..n]);
    Ok(Sent {
        batches,
        words: count,
    })
}

// Sends a job with its phrase book, which is empty where there is none: writes its transmission over the front of the words and each
// page's address slot, in job order, over the front of the slots, and reports the number of batches and of words. A declined job writes
// nothing.
pub fn send<'a>(
    job: &'a [u8],
    book: &'a [u8],
    words: &mut [u32],
    slots: &mut [u32],
) -> Result<Sent, SendError>
    ensures value { result ≡ report_of (with_book job.now book.now) (length words.old) (length slots.old) }
    ensures words_after { words.new ≡ over words.old (words_sent result (sendings_of (with_book job.now book.now))) }
    ensures slots_after { slots.new ≡ over slots.old (slots_sent result (sendings_of (with_book job.now book.now))) }
{
    let read = job::read_job(job, book);
    let n = read.answer?;
    send_pages(job, book, read, n, words, slots)
}
