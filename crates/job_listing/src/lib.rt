// A job with its phrase book straight to its listing: what the sending program does with its input.
#![tactic(auto)]

ghost use Rattle.std.specs.Prelude.{◌≡◌, ◌≤◌, length, take};
ghost use Rattle.base.specs.Lists.{over};
ghost use Rattle.job.specs.Submission.{with_book};
ghost use Rattle.listing.specs.Text.{text_of};
ghost use Rattle.job_listing.specs.Listed.{listing_text, listed_of, written_into, bytes_listed, error_of, number_of, place_of, position_of};

use job::Refused;
use transmission::SendError;

// Why a job is not listed. Not the type of `transmission`: the functions that give an answer its number are each crate's own.
#[derive(Clone, Copy, PartialEq, Eq)]
pub enum ListError {
    // The job's own refusal, with its place.
    Job(Refused),
    // The lent slice is shorter than the listing: number 10.
    NoRoom,
}

impl From<SendError> for ListError {
    ghost from_gives = { λ unsent error. error ≡ error_of unsent };

    fn from(unsent: SendError) -> ListError {
        match unsent {
            SendError::Job(refusal) => ListError::Job(refusal),
            SendError::NoRoom => ListError::NoRoom,
        }
    }
}

// The number of an answer in the table; 0 where the listing is written.
pub fn number(a: Result<usize, ListError>) -> u32
    ensures { result ≡ number_of a }
{
    match a {
        Ok(_) => 0,
        Err(ListError::Job(refusal)) => job::number(Err(refusal)),
        Err(ListError::NoRoom) => 10,
    }
}

// The place of an answer; 0 where the listing is written.
pub fn place(a: Result<usize, ListError>) -> usize
    ensures { result ≡ place_of a }
{
    match a {
        Ok(_) => 0,
        Err(ListError::Job(refusal)) => refusal.place,
        Err(ListError::NoRoom) => 0,
    }
}

// The second place of an answer; 0 where the listing is written.
pub fn position(a: Result<usize, ListError>) -> usize
    ensures { result ≡ position_of a }
{
    match a {
        Ok(_) => 0,
        Err(ListError::Job(refusal)) => job::position(Err(refusal)),
        Err(ListError::NoRoom) => 0,
    }
}

// Writes the listing of the transmission of a job with its phrase book, which is empty where there is none, over the front of the slice;
// answers how many bytes it has.
pub fn list_job<'a>(job: &'a [u8], book: &'a [u8], out: &mut [u8]) -> Result<usize, ListError>
    ensures value { result ≡ listed_of (with_book job.now book.now) (length out.old) }
    ensures out_after { out.new ≡ over out.old (bytes_listed result (listing_text (with_book job.now book.now))) }
{
    // Room for every job: 18 and 17 words for each of 300 batches, and 48 slots.
    let mut words = [0u32; 5118];
    let mut slots = [0u32; 48];
    let sent = transmission::send(job, book, &mut words, &mut slots)?;
    write_front(&words, sent.words as usize, out)
}

// The listing of the first n words.
fn write_front(words: &[u32], n: usize, out: &mut [u8]) -> Result<usize, ListError>
    requires { n ≤ length words.now }
    ensures value { result ≡ written_into (length out.old) (text_of (take n words.now)) }
    ensures out_after { out.new ≡ over out.old (bytes_listed result (text_of (take n words.now))) }
{
    // Two arms and no `ok_or`: an edit of what is answered without room is refused for the answer, and not for a call more.
    let answer = listing::write(&words[..n], out);
    match answer {
        Some(bytes) => Ok(bytes),
        None => Err(ListError::NoRoom),
    }
}
