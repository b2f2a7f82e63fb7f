// The library as C calls it: each function is one call of the library, whose answer crosses as numbers (include/spuggenor.h).
#![tactic(auto)]

ghost use Rattle.std.specs.Prelude.{◌≡◌, length};
ghost use Rattle.base.specs.Lists.{over};
ghost use Rattle.codeword.specs.Answer.{answer};
ghost use Rattle.codeword.specs.Nearest.{nearest};
ghost use Rattle.job.specs.Submission.{with_book};
ghost use Rattle.transmission.specs.Sending.{sendings_of};
ghost use Rattle.transmission.specs.Report.{report_of, words_sent, slots_sent};
ghost use Rattle.job_listing.specs.Listed.{listing_text, listed_of, bytes_listed};
ghost use Rattle.listing.specs.Words.{words_of};
ghost use Rattle.reader.specs.Answers.{read_words, read_listing, lines_read};
ghost use Rattle.follower.specs.Pages.{pages_for};
ghost use Rattle.follower.specs.Answers.{follow_words, follow_listing, lines_of};
ghost use Rattle.receiver.specs.Answers.{receive_bits, lines_received};
ghost use Rattle.coverage.specs.Report.{added_to};
ghost use Rattle.coverage.specs.Rates.{rate_of};
ghost use Rattle.sender.specs.Start.{started_of};
ghost use Rattle.sender.specs.Step.{step_of};
ghost use Rattle.card.specs.Answers.{word_for, report_for, bytes_for, reading_for, following_for, receiving_for, adding_for, refusal_for, state_for, step_for};

use codeword::{Corrected, Engine};
use coverage::{AddError, Coverage, Rate};
use follower::{FollowError, Followed};
use job::Refused;
use job_listing::ListError;
use reader::{Changes, Read, ReadError};
use receiver::{Refusal, Totals};
use sender::{Answer, Opening, Sender};
use transmission::{SendError, Sent};

// A word, 0 or 20, and how many bits are changed.
#[repr(C)]
#[derive(Clone, Copy)]
pub struct CardWord {
    pub word: u32,
    pub number: u32,
    pub changed: u32,
}

// A job's report.
#[repr(C)]
#[derive(Clone, Copy)]
pub struct CardReport {
    pub place: usize,
    pub position: usize,
    pub number: u32,
    pub batches: u32,
    pub words: u32,
}

// How many bytes are written.
#[repr(C)]
#[derive(Clone, Copy)]
pub struct CardBytes {
    pub place: usize,
    pub position: usize,
    pub bytes: usize,
    pub number: u32,
}

// How many bytes of page lines are written, and what was heard.
#[repr(C)]
#[derive(Clone, Copy)]
pub struct CardReading {
    pub place: usize,
    pub bytes: usize,
    pub number: u32,
    pub pages: u32,
    pub lost: u32,
    pub orphans: u32,
    pub changed: Changes,
}

// How many bytes of one identity's lines are written, and how many lines these are.
#[repr(C)]
#[derive(Clone, Copy)]
pub struct CardFollowing {
    pub place: usize,
    pub bytes: usize,
    pub number: u32,
    pub lines: u32,
}

// The same of a recording as of a reading, with the number of its batches.
#[repr(C)]
#[derive(Clone, Copy)]
pub struct CardReceiving {
    pub place: usize,
    pub bytes: usize,
    pub number: u32,
    pub batches: u32,
    pub pages: u32,
    pub lost: u32,
    pub orphans: u32,
    pub changed: Changes,
}

// A number and its places.
#[repr(C)]
#[derive(Clone, Copy)]
pub struct CardRefusal {
    pub place: usize,
    pub position: usize,
    pub number: u32,
}

// A step's word; done is 1 where all words are out.
#[repr(C)]
#[derive(Clone, Copy)]
pub struct CardStep {
    pub word: u32,
    pub done: u32,
    pub number: u32,
}

// The answer to a word as numbers: the corrected word and how many bits are changed, or the word itself and number 20. No From:
// the word stands beside the answer.
fn word_numbers(word: u32, a: Option<Corrected>) -> CardWord
    ensures { result ≡ word_for word a }
{
    let Some(Corrected { codeword, changed }) = a else {
        return CardWord {
            word,
            number: 20,
            changed: 0,
        };
    };
    CardWord {
        word: codeword.word(),
        number: 0,
        changed,
    }
}

// Corrects a word.
pub fn card_correct(word: u32) -> CardWord
    ensures { result ≡ word_for word (answer word (nearest word)) }
{
    word_numbers(word, codeword::correct(word))
}

// Corrects a word with the slow engine.
pub fn card_correct_slowly(word: u32) -> CardWord
    ensures { result ≡ word_for word (answer word (nearest word)) }
{
    word_numbers(word, codeword::correct_slowly(word))
}

impl From<Result<Sent, SendError>> for CardReport {
    ghost from_gives = { λ r c. c ≡ report_for r };

    fn from(r: Result<Sent, SendError>) -> CardReport {
        let sent = r.unwrap_or(Sent {
            batches: 0,
            words: 0,
        });
        CardReport {
            place: transmission::place(r),
            position: transmission::position(r),
            number: transmission::number(r),
            batches: sent.batches,
            words: sent.words,
        }
    }
}

// Sends a job with its phrase book, which is empty where there is none, into lent words and slots.
pub fn card_send<'a>(
    job: &'a [u8],
    book: &'a [u8],
    words: &mut [u32],
    slots: &mut [u32],
) -> CardReport
    ensures value { result ≡ report_for (report_of (with_book job.now book.now) (length words.old) (length slots.old)) }
    ensures words_after { words.new ≡ over words.old (words_sent (report_of (with_book job.now book.now) (length words.old) (length slots.old)) (sendings_of (with_book job.now book.now))) }
    ensures slots_after { slots.new ≡ over slots.old (slots_sent (report_of (with_book job.now book.now) (length words.old) (length slots.old)) (sendings_of (with_book job.now book.now))) }
{
    CardReport::from(transmission::send(job, book, words, slots))
}

impl From<Result<usize, ListError>> for CardBytes {
    ghost from_gives = { λ a c. c ≡ bytes_for a };

    fn from(a: Result<usize, ListError>) -> CardBytes {
        CardBytes {
            place: job_listing::place(a),
            position: job_listing::position(a),
            bytes: a.unwrap_or(0),
            number: job_listing::number(a),
        }
    }
}

// Writes the listing of a job with its phrase book, which is empty where there is none, over the front of lent bytes.
pub fn card_list<'a>(job: &'a [u8], book: &'a [u8], out: &mut [u8]) -> CardBytes
    ensures value { result ≡ bytes_for (listed_of (with_book job.now book.now) (length out.old)) }
    ensures out_after { out.new ≡ over out.old (bytes_listed (listed_of (with_book job.now book.now) (length out.old)) (listing_text (with_book job.now book.now))) }
{
    CardBytes::from(job_listing::list_job(job, book, out))
}

// What a declined reading reads.
const UNREAD: Read = Read {
    pages: 0,
    lost: 0,
    orphans: 0,
    changed: Changes { slots: 0, syncs: 0 },
    bytes: 0,
};

impl From<Result<Read, ReadError>> for CardReading {
    ghost from_gives = { λ r c. c ≡ reading_for r };

    fn from(r: Result<Read, ReadError>) -> CardReading {
        let read = r.unwrap_or(UNREAD);
        CardReading {
            place: reader::place(r),
            bytes: read.bytes,
            number: reader::number(r),
            pages: read.pages,
            lost: read.lost,
            orphans: read.orphans,
            changed: read.changed,
        }
    }
}

// Writes the page lines of words, batches only, over the front of lent bytes.
fn read_words(engine: Engine, words: &[u32], out: &mut [u8]) -> CardReading
    ensures value { result ≡ reading_for (read_words words.now (length out.old)) }
    ensures out_after { out.new ≡ over out.old (lines_read (read_words words.now (length out.old)) words.now) }
{
    CardReading::from(reader::read_words(engine, words, out))
}

// Words read with the fast engine.
pub fn card_read_words(words: &[u32], out: &mut [u8]) -> CardReading
    ensures value { result ≡ reading_for (read_words words.now (length out.old)) }
    ensures out_after { out.new ≡ over out.old (lines_read (read_words words.now (length out.old)) words.now) }
{
    read_words(Engine::Fast, words, out)
}

// Words read with the slow engine.
pub fn card_read_words_slowly(words: &[u32], out: &mut [u8]) -> CardReading
    ensures value { result ≡ reading_for (read_words words.now (length out.old)) }
    ensures out_after { out.new ≡ over out.old (lines_read (read_words words.now (length out.old)) words.now) }
{
    read_words(Engine::Slow, words, out)
}

// Writes the page lines of a listing over the front of lent bytes.
fn read_listing(engine: Engine, listing: &[u8], out: &mut [u8]) -> CardReading
    ensures value { result ≡ reading_for (read_listing listing.now (length out.old)) }
    ensures out_after { out.new ≡ over out.old (lines_read (read_listing listing.now (length out.old)) (words_of listing.now)) }
{
    CardReading::from(reader::read_listing(engine, listing, out))
}

// A listing read with the fast engine.
pub fn card_read_listing(listing: &[u8], out: &mut [u8]) -> CardReading
    ensures value { result ≡ reading_for (read_listing listing.now (length out.old)) }
    ensures out_after { out.new ≡ over out.old (lines_read (read_listing listing.now (length out.old)) (words_of listing.now)) }
{
    read_listing(Engine::Fast, listing, out)
}

// A listing read with the slow engine.
pub fn card_read_listing_slowly(listing: &[u8], out: &mut [u8]) -> CardReading
    ensures value { result ≡ reading_for (read_listing listing.now (length out.old)) }
    ensures out_after { out.new ≡ over out.old (lines_read (read_listing listing.now (length out.old)) (words_of listing.now)) }
{
    read_listing(Engine::Slow, listing, out)
}

impl From<Result<Followed, FollowError>> for CardFollowing {
    ghost from_gives = { λ r c. c ≡ following_for r };

    fn from(r: Result<Followed, FollowError>) -> CardFollowing {
        let followed = r.unwrap_or(Followed { bytes: 0, lines: 0 });
        CardFollowing {
            place: follower::place(r),
            bytes: followed.bytes,
            number: follower::number(r),
            lines: followed.lines,
        }
    }
}

// Writes the page lines of one identity in words, batches only, over the front of lent bytes.
pub fn card_follow_words(identity: u32, words: &[u32], out: &mut [u8]) -> CardFollowing
    ensures value { result ≡ following_for (follow_words identity words.now (length out.old)) }
    ensures out_after { out.new ≡ over out.old (lines_of (follow_words identity words.now (length out.old)) (pages_for identity words.now)) }
{
    CardFollowing::from(follower::follow_words(identity, words, out))
}

// The same of a listing.
pub fn card_follow_listing(identity: u32, listing: &[u8], out: &mut [u8]) -> CardFollowing
    ensures value { result ≡ following_for (follow_listing identity listing.now (length out.old)) }
    ensures out_after { out.new ≡ over out.old (lines_of (follow_listing identity listing.now (length out.old)) (pages_for identity (words_of listing.now))) }
{
    CardFollowing::from(follower::follow_listing(identity, listing, out))
}

impl From<Result<Totals, Refusal>> for CardReceiving {
    ghost from_gives = { λ r c. c ≡ receiving_for r };

    fn from(r: Result<Totals, Refusal>) -> CardReceiving {
        let totals = receiver::report(r);
        CardReceiving {
            place: 0,
            bytes: totals.bytes,
            number: receiver::number(r),
            batches: totals.batches,
            pages: totals.pages,
            lost: totals.lost,
            orphans: totals.orphans,
            changed: totals.changed,
        }
    }
}

// Writes the page lines of a recording's bits over the front of lent bytes.
pub fn card_receive(bits: &[u8], out: &mut [u8]) -> CardReceiving
    ensures value { result ≡ receiving_for (receive_bits bits.now (length out.old)) }
    ensures out_after { out.new ≡ over out.old (lines_received (receive_bits bits.now (length out.old)) bits.now) }
{
    CardReceiving::from(receiver::receive(bits, out))
}

impl From<Result<(), AddError>> for CardRefusal {
    ghost from_gives = { λ a c. c ≡ adding_for a };

    fn from(a: Result<(), AddError>) -> CardRefusal {
        CardRefusal {
            place: coverage::place(a),
            position: 0,
            number: coverage::number(a),
        }
    }
}

// Adds a listing to the report that the caller keeps.
pub fn card_coverage_add(listing: &[u8], coverage: &mut Coverage) -> CardRefusal
    ensures { (result ≡ adding_for (added_to coverage.old listing.now).answer) × (coverage.new ≡ (added_to coverage.old listing.now).coverage) }
{
    let covered = coverage::add(*coverage, listing);
    *coverage = covered.coverage;
    CardRefusal::from(covered.answer)
}

// The rate of a frame, 0 to 7, or of sync, 8, in the report that the caller keeps.
pub fn card_coverage_rate(coverage: &Coverage, row: u32) -> Rate
    ensures { result ≡ rate_of coverage.now row }
{
    coverage::rate_of(*coverage, row)
}

impl From<Result<usize, Refused>> for CardRefusal {
    ghost from_gives = { λ a c. c ≡ refusal_for a };

    fn from(a: Result<usize, Refused>) -> CardRefusal {
        CardRefusal {
            place: job::place(a),
            position: job::position(a),
            number: job::number(a),
        }
    }
}

// Starts the sending of a job with its phrase book, which is empty where there is none, in the state that the caller keeps. The message
// words are written where they lie. A declined job leaves all as it was.
pub fn card_start<'a>(job: &'a [u8], book: &'a [u8], state: &mut Sender) -> CardRefusal
    ensures { (result ≡ refusal_for (started_of (with_book job.now book.now)).answer) × (state.new ≡ state_for (started_of (with_book job.now book.now)).answer (started_of (with_book job.now book.now)).state state.old) }
{
    let Opening {
        answer,
        cursor,
        pages,
        sent,
    } = sender::start_with(job, book, &mut state.words);
    let refusal = CardRefusal::from(answer);
    let Ok(_) = answer else {
        return refusal;
    };
    state.cursor = cursor;
    state.pages = pages;
    state.sent = sent;
    refusal
}

impl From<Answer> for CardStep {
    ghost from_gives = { λ a c. c ≡ step_for a };

    fn from(a: Answer) -> CardStep {
        match a {
            Answer::Word(word) => CardStep {
                word,
                done: 0,
                number: 0,
            },
            Answer::Done => CardStep {
                word: 0,
                done: 1,
                number: 0,
            },
            Answer::Refused => CardStep {
                word: 0,
                done: 0,
                number: 11,
            },
        }
    }
}

// The next word, from the state that the caller keeps.
pub fn card_step(state: &mut Sender) -> CardStep
    ensures { (result ≡ step_for (step_of state.old).answer) × (state.new ≡ (step_of state.old).state) }
{
    CardStep::from(sender::step(state))
}
