// Reads a job's page lines with its phrase book (document 01, "Page lines" and the table of refusals, with requests R-1, R-6 and R-11). An
// empty book is none.
#![tactic(auto)]

ghost use Rattle.std.specs.Prelude.{◌≡◌, cond, Err, [], ◌-◌, ◌*◌, ◌^◌, ◌≤◌, ◌<◌, length, take, drop, replicate};
ghost use Rattle.base.specs.Hex.{is_hex, bytes_of};
ghost use Rattle.base.specs.Leading.{leading};
ghost use Rattle.base.specs.Lines.{split};
ghost use Rattle.base.specs.Part.{PointsInto};
ghost use Rattle.phrases.specs.Book.{has_book, phrase_for};
ghost use Rattle.job.specs.Refusal.{number_of, position_of, refused, job_number, job_place, job_position};
ghost use Rattle.job.specs.Line.{is_data, is_reserved, longest_of, coding_of, kind_sent, function_of, good_run, Counted, is_digits, is_pairs, head_formed, text_formed, tail_formed, tone_page_of, text_page_of, data_page_of, phrase_page_of, kind_page_of, page_of, line_of};
ghost use Rattle.job.specs.Message.{group_from, count_from};
ghost use Rattle.job.specs.Submission.{with_book, source_of};
ghost use Rattle.job.specs.Pages.{pages_of, no_page, digits_in};
ghost use Rattle.base.specs.Lists.{over, tab};
ghost use Rattle.job.specs.Print.{head_of, spaced, ending, printed, printing_of, bytes_printed};
ghost use Rattle.job.specs.Job.{judge, table_of, answer_with, reading_of};
ghost use Rattle.job.specs.declared.Refusal.TheVariants.{Malformed, UnknownKind};

use text::Coding;

// Why a job is declined: a line's refusals in the order of their rank, then the two of the whole job, then its book's.
#[derive(Clone, Copy, PartialEq, Eq)]
pub enum Refusal {
    Malformed,
    IdentityRange,
    IdentityReserved,
    UnknownKind,
    PartialGroup,
    ToneWithText,
    TextMissing,
    TextTooLong,
    NoPhrase,
    // The first bad character's position in the text, counted from 1.
    Character(usize),
    TrailingSpace,
    TooManyLines,
    EmptyJob,
    BadBook,
}

// A page: its identity, its kind, the byte at which the digits of its text start, of the book where the kind is 9, else of the job, and
// how many they are. No byte of it is unused, so that an array of them is cleared at once.
// The kind stays a number: the contracts of `function`, `groups` and `write_groups` take every u32. A start and a length and no slice: the
// pages of `reading_of` are numbers, and `page_text` promises where the part points.
#[derive(Clone, Copy)]
pub struct Page {
    pub identity: u32,
    pub kind: u32,
    pub start: usize,
    pub length: usize,
}

// Why a job is declined, and where: the place is a line of the job, or of a bad book, counted from 1; 0 for the job as a whole,
// as document 01's table has it.
#[derive(Clone, Copy, PartialEq, Eq)]
pub struct Refused {
    pub why: Refusal,
    pub place: usize,
}

// A job's answer, the number of its pages or its refusal, and the pages of an accepted one. Zeros stand behind the last page, and
// everywhere where the job is refused. The answer stands beside the pages and not around them, since `reading_of` says what these are in a
// refused job too; their memory is fixed.
#[derive(Clone, Copy)]
pub struct Pages {
    pub answer: Result<usize, Refused>,
    pub pages: [Page; 48],
}

// The number of a refusal in the table, whose numbers the C interface answers with.
fn refusal_number(why: Refusal) -> u32
    ensures { result ≡ number_of why }
{
    match why {
        Refusal::Malformed => 1,
        Refusal::IdentityRange => 2,
        Refusal::IdentityReserved => 3,
        Refusal::UnknownKind => 4,
        Refusal::PartialGroup => 25,
        Refusal::ToneWithText => 12,
        Refusal::TextMissing => 13,
        Refusal::TextTooLong => 14,
        Refusal::NoPhrase => 18,
        Refusal::Character(_) => 6,
        Refusal::TrailingSpace => 7,
        Refusal::TooManyLines => 8,
        Refusal::EmptyJob => 9,
        Refusal::BadBook => 19,
    }
}

// The number of a job's answer in the table; 0 where the job is accepted.
pub fn number(a: Result<usize, Refused>) -> u32
    ensures { result ≡ job_number a }
{
    match a {
        Ok(_) => 0,
        Err(refusal) => refusal_number(refusal.why),
    }
}

// The place of a job's answer; 0 where the job is accepted.
pub fn place(a: Result<usize, Refused>) -> usize
    ensures { result ≡ job_place a }
{
    match a {
        Ok(_) => 0,
        Err(refusal) => refusal.place,
    }
}

// The second place of a refusal: the position that number 6 has; 0 with every other number.
fn refusal_position(why: Refusal) -> usize
    ensures { result ≡ position_of why }
{
    match why {
        Refusal::Character(position) => position,
        _ => 0,
    }
}

// The second place of a job's answer; 0 where the job is accepted.
pub fn position(a: Result<usize, Refused>) -> usize
    ensures { result ≡ job_position a }
{
    match a {
        Ok(_) => 0,
        Err(refusal) => refusal_position(refusal.why),
    }
}

// Whether a text is one or more hexadecimal digits.
fn is_digits(t: &[u8]) -> bool
    ensures { result ≡ is_digits t.now }
{
    !t.is_empty() && base::hex_run(t) == t.len()
}

// Whether a text is one or more pairs of hexadecimal digits, of which so many at its front are known to be.
#[tactic(auto, using(crate::proofs::Decided::pairs_odd, crate::proofs::Decided::pairs_even, crate::proofs::Decided::digits_behind))]
fn is_pairs(t: &[u8], known: usize) -> bool
    requires { 2 * known ≤ leading is_hex t.now }
    ensures { result ≡ is_pairs t.now }
{
    let n = t.len();
    if n == 0 {
        return false;
    }
    if n % 2 != 0 {
        return false;
    }
    let digits = 2 * known;
    digits + base::hex_run(&t[digits..]) == n
}

// Whether a line begins with six digits of identity, a space and a digit of kind.
fn head_formed(line: &[u8]) -> bool
    ensures { result ≡ head_formed line.now }
{
    if line.len() < 8 {
        return false;
    }
    if base::hex_run(&line[..6]) < 6 {
        return false;
    }
    if line[6] != b' ' {
        return false;
    }
    base::is_hex(line[7])
}

// Whether an identity has the upper address value of idle or of sync.
pub fn is_reserved(identity: u32) -> bool
    ensures { result ≡ is_reserved identity }
{
    matches!(identity / 8, 250958 | 255632)
}

// The most characters of a kind's text.
fn longest(kind: u32) -> usize
    ensures { result ≡ longest_of kind }
{
    match kind {
        0..=3 => 0,
        4 => 60,
        _ => 240,
    }
}

// How a kind's text is coded.
fn coding(kind: u32) -> Coding
    ensures { result ≡ coding_of kind }
{
    match kind {
        4 => Coding::Numeric,
        _ => Coding::Alphanumeric,
    }
}

// The function with which a kind is sent.
pub fn function(kind: u32) -> u32
    ensures { result ≡ function_of (kind_sent kind) }
{
    match kind {
        4 => 0,
        5 => 3,
        6 => 1,
        7 => 2,
        9 => 3,
        _ => kind,
    }
}

// Whether a kind's text is data.
fn is_data(kind: u32) -> bool
    ensures { result ≡ is_data kind }
{
    matches!(kind, 6 | 7)
}

// How many groups a text of so many digits takes.
pub fn groups(kind: u32, length: u16) -> usize
    ensures { result ≡ count_from (kind_sent kind) length }
{
    if is_data(kind) {
        return usize::from(length / 5);
    }
    text::groups(coding(kind), length / 2)
}

// Fills a slice with the first groups of a text.
pub fn write_groups(kind: u32, digits: &[u8], groups: &mut [u32])
    ensures { groups.new ≡ tab (group_from (kind_sent kind) digits.now) (length groups.old) }
{
    if is_data(kind) {
        text::write_fives(digits, groups);
        return;
    }
    text::write_groups(coding(kind), digits, groups);
}

// A tone, or number 12.
fn judge_tone(page: Page, text: &[u8]) -> Result<Page, Refusal>
    ensures { result ≡ tone_page_of page text.now }
{
    if !text.is_empty() {
        return Err(Refusal::ToneWithText);
    }
    Ok(page)
}

// A page with a text, or the first of numbers 13, 14, 6 and 7. The caller has counted the kind's characters at the text's front.
fn judge_text(page: Page, text: &[u8], good: usize) -> Result<Page, Refusal>
    requires { good ≡ good_run page.kind (bytes_of text.now) }
    ensures { result ≡ text_page_of page (bytes_of text.now) }
{
    let kind = page.kind;
    let n = text.len() / 2;
    if n == 0 {
        return Err(Refusal::TextMissing);
    }
    if longest(kind) < n {
        return Err(Refusal::TextTooLong);
    }
    if good < n {
        return Err(Refusal::Character(good + 1));
    }
    if text::ends_in_space(coding(kind), text) {
        return Err(Refusal::TrailingSpace);
    }
    Ok(page)
}

// A page of data, or the first of numbers 25, 13 and 14.
fn judge_data(page: Page, digits: &[u8]) -> Result<Page, Refusal>
    ensures { result ≡ data_page_of page digits.now }
{
    let n = digits.len();
    if n % 5 != 0 {
        return Err(Refusal::PartialGroup);
    }
    if n == 0 {
        return Err(Refusal::TextMissing);
    }
    if 84 < n / 5 {
        return Err(Refusal::TextTooLong);
    }
    Ok(page)
}

// A page with a phrase of the book, or number 18; without a book, number 4.
fn judge_phrase(page: Page, digits: &[u8], book: &[u8]) -> Result<Page, Refusal>
    ensures { result ≡ cond (has_book book.now) (phrase_page_of page (phrase_for book.now digits.now)) (Err UnknownKind) }
{
    if book.is_empty() {
        return Err(Refusal::UnknownKind);
    }
    match phrases::find_phrase(book, digits) {
        None => Err(Refusal::NoPhrase),
        Some(phrase) => Ok(Page {
            start: phrase.start,
            length: phrase.length,
            ..page
        }),
    }
}

// The page by its kind, or number 4 or its text's refusal.
fn judge_kind(page: Page, text: &[u8], good: usize, book: &[u8]) -> Result<Page, Refusal>
    requires { Counted page.kind text.now good }
    ensures { result ≡ kind_page_of book.now page text.now }
{
    let kind = page.kind;
    match kind {
        0..=3 => judge_tone(page, text),
        4 | 5 => judge_text(page, text, good),
        6 | 7 => judge_data(page, text),
        9 => judge_phrase(page, text, book),
        _ => Err(Refusal::UnknownKind),
    }
}

// The page of a well-formed line, or its first refusal.
#[tactic(auto, using(crate::proofs::Decided::identity_high))]
fn judge_page(page: Page, text: &[u8], good: usize, book: &[u8]) -> Result<Page, Refusal>
    requires { Counted page.kind text.now good }
    ensures { result ≡ page_of book.now page text.now }
{
    let identity = page.identity;
    if 0x1FFFFF < identity {
        return Err(Refusal::IdentityRange);
    }
    if is_reserved(identity) {
        return Err(Refusal::IdentityReserved);
    }
    judge_kind(page, text, good, book)
}

// The page of what must be pairs, or its first refusal. A text is passed over once: digits and characters together up to the first bad
// character, and only digits behind it.
fn judge_pairs(page: Page, text: &[u8], book: &[u8]) -> Result<Page, Refusal>
    ensures { result ≡ cond (is_pairs text.now) (page_of book.now page text.now) (Err Malformed) }
{
    let kind = page.kind;
    let good = text::char_run(coding(kind), text);
    if is_pairs(text, good) {
        return judge_page(page, text, good, book);
    }
    Err(Refusal::Malformed)
}

// The page of a text, which must be pairs, or digits where it is data; or its first refusal.
fn judge_digits(page: Page, text: &[u8], book: &[u8]) -> Result<Page, Refusal>
    ensures { result ≡ cond (text_formed page.kind text.now) (page_of book.now page text.now) (Err Malformed) }
{
    let kind = page.kind;
    if !is_data(kind) {
        return judge_pairs(page, text, book);
    }
    if !is_digits(text) {
        return Err(Refusal::Malformed);
    }
    judge_page(page, text, 0, book)
}

// The page by what stands behind its kind, which must be nothing, or a space and a text; or its first refusal.
fn judge_tail(page: Page, t: &[u8], book: &[u8]) -> Result<Page, Refusal>
    ensures { result ≡ cond (tail_formed page.kind t.now) (page_of book.now page (drop 1 t.now)) (Err Malformed) }
{
    match t {
        [] => judge_page(page, t, 0, book),
        [b' ', text @ ..] => judge_digits(page, text, book),
        _ => Err(Refusal::Malformed),
    }
}

// What a line, without its newline, says; it starts at this byte of the job.
fn read_line(line: &[u8], at: usize, book: &[u8]) -> Result<Page, Refusal>
    requires { at < 2 ^ 63 }
    ensures { result ≡ line_of book.now at line.now }
{
    if !head_formed(line) {
        return Err(Refusal::Malformed);
    }
    let identity = base::hex_number(&line[..6]);
    let kind = u32::from(base::hex_value(line[7]));
    let page = Page {
        identity,
        kind,
        // Its text's digits stand behind six digits, a space, a digit and a space.
        start: at + 9,
        length: line.len().saturating_sub(9),
    };
    judge_tail(page, &line[8..], book)
}

// Room for 48 pages.
fn no_pages() -> [Page; 48]
    ensures { result ≡ replicate 48 no_page }
{
    let none = Page {
        identity: 0,
        kind: 0,
        start: 0,
        length: 0,
    };
    [none; 48]
}

// A refused job: no page is kept.
fn declined(why: Refusal, place: usize) -> Pages
    ensures { result ≡ table_of (refused why place) [] }
{
    Pages {
        answer: Err(Refused { why, place }),
        pages: no_pages(),
    }
}

// The pages of lines, or the refusal of the first faulty one. They are read once, front to back.
#[tactic(auto, using(crate::proofs::Decided::many_refused))]
fn read_lines(job: &[u8], book: &[u8]) -> Pages
    ensures { result ≡ answer_with (judge book.now 0 0 (split job.now)) (pages_of (with_book job.now book.now)) }
{
    let mut pages = no_pages();
    let mut at = 0;
    for k in 0..48 {
        if job.len() <= at {
            return Pages {
                answer: Ok(k),
                pages,
            };
        }
        let end = base::line_end(job, at);
        if job.len() <= end {
            return declined(Refusal::Malformed, k + 1);
        }
        match read_line(&job[at..end], at, book) {
            Ok(page) => pages[k] = page,
            Err(why) => return declined(why, k + 1),
        }
        at = end + 1;
    }
    if at < job.len() {
        return declined(Refusal::TooManyLines, 49);
    }
    Pages {
        answer: Ok(48),
        pages,
    }
}

// The pages of a job with its phrase book, or the refusal of the one or the other. Job and book are two slices here and above, and no struct
// of both: C lends two, and a struct would have to be made for each call.
pub fn read_job(job: &[u8], book: &[u8]) -> Pages
    ensures { result ≡ reading_of (with_book job.now book.now) }
{
    if let Some(fault) = phrases::book_fault(book) {
        return declined(Refusal::BadBook, fault);
    }
    if job.is_empty() {
        return declined(Refusal::EmptyJob, 0);
    }
    read_lines(job, book)
}

// The digits of a page's text: a part of the job, which starts mid-line, or of the book, and never a copy.
pub fn page_text<'a>(job: &'a [u8], book: &'a [u8], page: Page) -> &'a [u8]
    ensures points_into { PointsInto result (source_of page.kind job.entry book.entry) page.start }
    ensures result_value { result.now ≡ digits_in (with_book job.now book.now) page }
{
    if page.kind == 9 {
        return base::part(book, page.start, page.length);
    }
    base::part(job, page.start, page.length)
}

// Prints the line of a page whose text is written in these digits, `-` before its newline where it was cut short, over the front
// of the slice. Answers its length in bytes; nothing, which is number 10, where the slice is shorter. Only the low six digits of the
// identity and the low digit of the kind are printed. Bytes over a lent slice and no Display: C has it printed so, and there is no heap.
pub fn print_line(
    out: &mut [u8],
    identity: u32,
    kind: u8,
    digits: &[u8],
    cut: bool,
) -> Option<usize>
    ensures value { result ≡ printing_of (length out.old) (printed identity kind digits.now cut) }
    ensures out_after { out.new ≡ over out.old (take (bytes_printed result) (printed identity kind digits.now cut)) }
{
    let end = 8 + spaced_length(digits);
    let n = end + ending_length(cut);
    if out.len() < n {
        return None;
    }
    print_head(out, identity, kind);
    print_text(&mut out[8..], digits);
    print_ending(&mut out[end..], cut);
    Some(n)
}

fn spaced_length(digits: &[u8]) -> usize
    ensures { result ≡ length (spaced digits.now) }
{
    if digits.is_empty() {
        0
    } else {
        digits.len() + 1
    }
}

fn ending_length(cut: bool) -> usize
    ensures { result ≡ length (ending cut) }
{
    if cut { 2 } else { 1 }
}

// The identity and the kind, over the front of the slice.
fn print_head(out: &mut [u8], identity: u32, kind: u8)
    requires { 8 ≤ length out.old }
    ensures { out.new ≡ over out.old (head_of identity kind) }
{
    base::write_digits(&mut out[..6], identity);
    out[6] = b' ';
    out[7] = base::hex_digit(u32::from(kind));
}

// The text's digits behind a space, over the front of the slice; nothing where there are none.
fn print_text(out: &mut [u8], digits: &[u8])
    requires { length (spaced digits.now) ≤ length out.old }
    ensures { out.new ≡ over out.old (spaced digits.now) }
{
    if digits.is_empty() {
        return;
    }
    out[0] = b' ';
    out[1..=digits.len()].copy_from_slice(digits);
}

// The end of the line, over the front of the slice.
fn print_ending(out: &mut [u8], cut: bool)
    requires { length (ending cut) ≤ length out.old }
    ensures { out.new ≡ over out.old (ending cut) }
{
    if cut {
        out[..2].copy_from_slice(b"-\n");
    } else {
        out[0] = b'\n';
    }
}
