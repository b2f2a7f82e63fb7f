// The phrase book (request R-6): whether one is well formed, and where a phrase stands in it.
#![tactic(auto)]

ghost use Rattle.std.specs.Prelude.{◌≡◌};
ghost use Rattle.base.specs.Lines.{split};
ghost use Rattle.phrases.specs.Book.{is_phrase, first_fault, newline_from, phrase_at, phrase_for};

use text::Coding;

// The most phrases that a book has.
const PHRASES: usize = 100;

// A phrase of a book: the byte at which its digits start, and how many they are.
#[derive(Clone, Copy, Debug, PartialEq, Eq)]
pub struct Phrase {
    pub start: usize,
    pub length: usize,
}

// Whether a line of a book is a phrase.
#[tactic(auto, unfolding(crate::specs::Book::is_phrase))]
fn is_phrase(line: &[u8]) -> bool
    ensures { result ≡ is_phrase line.now }
{
    let run = text::char_run(Coding::Alphanumeric, line);
    (1..=240).contains(&run) && 2 * run == line.len()
}

// The newline that ends the line at a byte of a book, if it has one.
fn newline(book: &[u8], at: usize) -> Option<usize>
    ensures { result ≡ newline_from book.now at }
{
    let end = base::line_end(book, at);
    if end < book.len() { Some(end) } else { None }
}

// The first line of a book that is no phrase, or the 101st, counted from 1; none where there is no such line.
pub fn book_fault(book: &[u8]) -> Option<usize>
    ensures { result ≡ first_fault book.now }
{
    let mut at = 0;
    for k in 0..PHRASES {
        if book.len() <= at {
            return None;
        }
        match newline(book, at) {
            Some(end) if is_phrase(&book[at..end]) => at = end + 1,
            _ => return Some(k + 1),
        }
    }
    if at < book.len() {
        Some(PHRASES + 1)
    } else {
        None
    }
}

// The phrase at an index of a book, whatever its lines are.
fn phrase_at(book: &[u8], p: usize) -> Option<Phrase>
    ensures { result ≡ phrase_at p (split book.now) }
{
    let mut at = 0;
    for _ in 0..p {
        at = newline(book, at)? + 1;
    }
    let end = newline(book, at)?;
    Some(Phrase {
        start: at,
        length: end - at,
    })
}

// The phrase of a book that digits name; none where they are not two decimal digits, or the book has no such phrase.
pub fn find_phrase(book: &[u8], digits: &[u8]) -> Option<Phrase>
    ensures { result ≡ phrase_for book.now digits.now }
{
    let &[tens @ b'0'..=b'9', ones @ b'0'..=b'9'] = digits else {
        return None;
    };
    phrase_at(book, usize::from((tens - b'0') * 10 + (ones - b'0')))
}
