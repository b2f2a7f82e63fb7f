// The exports of the static library for C (include/spuggenor.h): each calls the function of its name in `card`, with the same clauses.
#![tactic(auto)]

ghost use Rattle.std.specs.Prelude.{◌≡◌, length};
ghost use Rattle.base.specs.Lists.{over};
ghost use Rattle.codeword.specs.Answer.{answer};
ghost use Rattle.codeword.specs.Nearest.{nearest};
ghost use Rattle.job.specs.Submission.{with_book};
ghost use Rattle.transmission.specs.Sending.{sendings_of};
ghost use Rattle.transmission.specs.Report.{report_of, words_sent, slots_sent};
ghost use Rattle.job_listing.specs.Listed.{listing_text, listed_of, bytes_listed};
ghost use Rattle.listing.specs.Words.{words_of};
ghost use Rattle.reader.specs.Answers.{read_words, read_listing, lines_read};
ghost use Rattle.follower.specs.Pages.{pages_for};
ghost use Rattle.follower.specs.Answers.{follow_words, follow_listing, lines_of};
ghost use Rattle.receiver.specs.Answers.{receive_bits, lines_received};
ghost use Rattle.coverage.specs.Report.{added_to};
ghost use Rattle.coverage.specs.Rates.{rate_of};
ghost use Rattle.sender.specs.Start.{started_of};
ghost use Rattle.sender.specs.Step.{step_of};
ghost use Rattle.card.specs.Answers.{word_for, report_for, bytes_for, reading_for, following_for, receiving_for, adding_for, refusal_for, state_for, step_for};

use card::{
    CardBytes, CardFollowing, CardReading, CardReceiving, CardRefusal, CardReport, CardStep,
    CardWord,
};
use coverage::{Coverage, Rate};
use sender::Sender;

// Corrects a word.
#[unsafe(no_mangle)]
pub extern "C" fn card_correct(word: u32) -> CardWord
    ensures { result ≡ word_for word (answer word (nearest word)) }
{
    card::card_correct(word)
}

// Corrects a word with the slow engine.
#[unsafe(no_mangle)]
pub extern "C" fn card_correct_slowly(word: u32) -> CardWord
    ensures { result ≡ word_for word (answer word (nearest word)) }
{
    card::card_correct_slowly(word)
}

// Sends a job with its phrase book, which is empty where there is none, into lent words and slots.
#[unsafe(no_mangle)]
pub extern "C" fn card_send<'a>(
    job: &'a [u8],
    book: &'a [u8],
    words: &mut [u32],
    slots: &mut [u32],
) -> CardReport
    ensures value { result ≡ report_for (report_of (with_book job.now book.now) (length words.old) (length slots.old)) }
    ensures words_after { words.new ≡ over words.old (words_sent (report_of (with_book job.now book.now) (length words.old) (length slots.old)) (sendings_of (with_book job.now book.now))) }
    ensures slots_after { slots.new ≡ over slots.old (slots_sent (report_of (with_book job.now book.now) (length words.old) (length slots.old)) (sendings_of (with_book job.now book.now))) }
{
    card::card_send(job, book, words, slots)
}

// Writes the listing of a job with its phrase book, which is empty where there is none, over the front of lent bytes.
#[unsafe(no_mangle)]
pub extern "C" fn card_list<'a>(job: &'a [u8], book: &'a [u8], out: &mut [u8]) -> CardBytes
    ensures value { result ≡ bytes_for (listed_of (with_book job.now book.now) (length out.old)) }
    ensures out_after { out.new ≡ over out.old (bytes_listed (listed_of (with_book job.now book.now) (length out.old)) (listing_text (with_book job.now book.now))) }
{
    card::card_list(job, book, out)
}

// Words read with the fast engine.
#[unsafe(no_mangle)]
pub extern "C" fn card_read_words(words: &[u32], out: &mut [u8]) -> CardReading
    ensures value { result ≡ reading_for (read_words words.now (length out.old)) }
    ensures out_after { out.new ≡ over out.old (lines_read (read_words words.now (length out.old)) words.now) }
{
    card::card_read_words(words, out)
}

// Words read with the slow engine.
#[unsafe(no_mangle)]
pub extern "C" fn card_read_words_slowly(words: &[u32], out: &mut [u8]) -> CardReading
    ensures value { result ≡ reading_for (read_words words.now (length out.old)) }
    ensures out_after { out.new ≡ over out.old (lines_read (read_words words.now (length out.old)) words.now) }
{
    card::card_read_words_slowly(words, out)
}

// A listing read with the fast engine.
#[unsafe(no_mangle)]
pub extern "C" fn card_read_listing(listing: &[u8], out: &mut [u8]) -> CardReading
    ensures value { result ≡ reading_for (read_listing listing.now (length out.old)) }
    ensures out_after { out.new ≡ over out.old (lines_read (read_listing listing.now (length out.old)) (words_of listing.now)) }
{
    card::card_read_listing(listing, out)
}

// A listing read with the slow engine.
#[unsafe(no_mangle)]
pub extern "C" fn card_read_listing_slowly(listing: &[u8], out: &mut [u8]) -> CardReading
    ensures value { result ≡ reading_for (read_listing listing.now (length out.old)) }
    ensures out_after { out.new ≡ over out.old (lines_read (read_listing listing.now (length out.old)) (words_of listing.now)) }
{
    card::card_read_listing_slowly(listing, out)
}

// Writes the page lines of one identity in words, batches only, over the front of lent bytes.
#[unsafe(no_mangle)]
pub extern "C" fn card_follow_words(identity: u32, words: &[u32], out: &mut [u8]) -> CardFollowing
    ensures value { result ≡ following_for (follow_words identity words.now (length out.old)) }
    ensures out_after { out.new ≡ over out.old (lines_of (follow_words identity words.now (length out.old)) (pages_for identity words.now)) }
{
    card::card_follow_words(identity, words, out)
}

// The same of a listing.
#[unsafe(no_mangle)]
pub extern "C" fn card_follow_listing(
    identity: u32,
    listing: &[u8],
    out: &mut [u8],
) -> CardFollowing
    ensures value { result ≡ following_for (follow_listing identity listing.now (length out.old)) }
    ensures out_after { out.new ≡ over out.old (lines_of (follow_listing identity listing.now (length out.old)) (pages_for identity (words_of listing.now))) }
{
    card::card_follow_listing(identity, listing, out)
}

// Writes the page lines of a recording's bits over the front of lent bytes.
#[unsafe(no_mangle)]
pub extern "C" fn card_receive(bits: &[u8], out: &mut [u8]) -> CardReceiving
    ensures value { result ≡ receiving_for (receive_bits bits.now (length out.old)) }
    ensures out_after { out.new ≡ over out.old (lines_received (receive_bits bits.now (length out.old)) bits.now) }
{
    card::card_receive(bits, out)
}

// Adds a listing to the report that the caller keeps.
#[unsafe(no_mangle)]
pub extern "C" fn card_coverage_add(listing: &[u8], coverage: &mut Coverage) -> CardRefusal
    ensures { (result ≡ adding_for (added_to coverage.old listing.now).answer) × (coverage.new ≡ (added_to coverage.old listing.now).coverage) }
{
    card::card_coverage_add(listing, coverage)
}

// The rate of a frame, 0 to 7, or of sync, 8, in the report that the caller keeps.
#[unsafe(no_mangle)]
pub extern "C" fn card_coverage_rate(coverage: &Coverage, row: u32) -> Rate
    ensures { result ≡ rate_of coverage.now row }
{
    card::card_coverage_rate(coverage, row)
}

// Starts the sending of a job with its phrase book, which is empty where there is none, in the state that the caller keeps. The message
// words are written where they lie.
#[unsafe(no_mangle)]
pub extern "C" fn card_start<'a>(job: &'a [u8], book: &'a [u8], state: &mut Sender) -> CardRefusal
    ensures { (result ≡ refusal_for (started_of (with_book job.now book.now)).answer) × (state.new ≡ state_for (started_of (with_book job.now book.now)).answer (started_of (with_book job.now book.now)).state state.old) }
{
    card::card_start(job, book, state)
}

// The next word, from the state that the caller keeps.
#[unsafe(no_mangle)]
pub extern "C" fn card_step(state: &mut Sender) -> CardStep
    ensures { (result ≡ step_for (step_of state.old).answer) × (state.new ≡ (step_of state.old).state) }
{
    card::card_step(state)
}
