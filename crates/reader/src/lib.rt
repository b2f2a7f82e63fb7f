// Words or a listing to page lines and a report (document 01, "Listings and reading").
#![tactic(auto)]

ghost use Rattle.std.specs.Prelude.{◌≡◌, ◌+◌, ◌*◌, ◌/◌, ◌≤◌, ◌<◌, length};
ghost use Rattle.base.specs.Lists.{over};
ghost use Rattle.codeword.specs.Nearest.{nearest};
ghost use Rattle.listing.specs.Words.{words_of};
ghost use Rattle.text.specs.Answer.{heard_digits};
ghost use Rattle.text.specs.Fives.{fives};
ghost use Rattle.reader.specs.Meaning.{codeword_meaning, meaning, is_sync};
ghost use Rattle.reader.specs.Changed.{unless_lost, slot_changed, slots_changed, syncs_changed};
ghost use Rattle.reader.specs.Reading.{closed_as, slot_word, sync_word, heard_stretch, heard_in};
ghost use Rattle.reader.specs.Lines.{kind_heard, digits_heard, line_heard, heard_page, printing_heard, digits_written, line_written};
ghost use Rattle.reader.specs.Answers.{first_unsynced, judge_batches, judge_words, fault_of, judge_decoded, printed_into, answered, lines_of, read_stretch, read_words, read_listing, lines_read, number_of, place_of};
ghost use Rattle.reader.specs.Readable.{Readable, batches_first, Decoding};
ghost use Rattle.reader.specs.Symbols.{said, is_message, Tells, state_by, heard_by, page_in, Printable};
ghost use Rattle.reader.specs.Progress.{Buffers, Room, Messages, Idles, Quiet, with_messages, Kept, KeptAll, closed};
ghost use Rattle.reader.specs.declared.ReadError.TheVariants.{Fault as Faulty};

use codeword::{Codeword, Corrected, Engine};
use text::Coding;

// What a received word says.
#[derive(Clone, Copy, Debug, PartialEq, Eq)]
pub enum Meaning {
    // No codeword is near, or one with a reserved upper value that is not idle itself.
    Lost,
    Idle,
    // The upper bits of the identity, its low three being 0, and the function.
    Address(u32, u32),
    // Twenty bits of a message.
    Message(u32),
}

// Why words or a listing can't be read. The 0 for words is no Option: `judge_words` promises it, as the place of document 01's table.
#[derive(Clone, Copy, Debug, PartialEq, Eq)]
pub enum Fault {
    // Number 21, with the line; 0 for words.
    Malformed(usize),
    // Number 23, with the line; 0 for words.
    TooMany(usize),
    // Number 22: the batch, from 1, whose first word does not correct to sync.
    Unsynced(usize),
}

// How many bits are changed in the slots' words, of which lost ones count 0, and in the sync words.
#[repr(C)]
#[derive(Clone, Copy, Debug, PartialEq, Eq)]
pub struct Changes {
    pub slots: u32,
    pub syncs: u32,
}

// What was read: pages, lost words and orphans, the changed bits, and how many bytes of page lines are written.
#[derive(Clone, Copy, Debug, PartialEq, Eq)]
pub struct Read {
    pub pages: u32,
    pub lost: u32,
    pub orphans: u32,
    pub changed: Changes,
    pub bytes: usize,
}

// Why nothing is read.
#[derive(Clone, Copy, Debug, PartialEq, Eq)]
pub enum ReadError {
    Fault(Fault),
    // Number 10: the lent slice is shorter than the lines.
    NoRoom,
}

impl From<Fault> for ReadError {
    ghost from_gives = { λ why e. e ≡ Faulty why };

    fn from(why: Fault) -> ReadError {
        ReadError::Fault(why)
    }
}

// What a received word is read as: its symbol, and how many bits are changed, none where it is lost.
#[derive(Clone, Copy)]
struct ReadWord {
    symbol: u32,
    changed: u32,
}

// What is kept of a reading before a slot.
#[derive(Clone, Copy, Default)]
struct Progress {
    // The slot of the open page's address.
    held: Option<usize>,
    // The closed pages, the lost words, the orphans.
    pages: u32,
    lost: u32,
    orphans: u32,
    // How many bytes the lines of the closed pages take.
    bytes: usize,
}

// The symbol of a lost word. Any other word's symbol is the 21 information bits of its codeword. Symbols are numbers and no enum: the sizes
// of the stack that include/spuggenor.h names hold for four bytes a slot, and an enum with its values takes twelve.
const LOST: u32 = 0x20_0000;

// The symbol of idle.
const IDLE: u32 = 0xF_5138;

// A codeword's symbol.
fn symbol(c: Codeword) -> u32
    ensures { said result ≡ codeword_meaning c.0 }
{
    let bits = c.word() / 2048;
    if 0x10_0000 <= bits {
        return bits;
    }
    if c.is_idle() {
        return bits;
    }
    if job::is_reserved(bits / 4 * 8) {
        return LOST;
    }
    bits
}

// How many of the changed bits count, by the word's symbol: none where it is lost.
#[tactic(auto, using(crate::proofs::ChangeLaws::kept))]
fn unless_lost(symbol: u32, changed: u32) -> u32
    ensures { result ≡ unless_lost (said symbol) changed }
{
    if symbol < LOST {
        return changed;
    }
    0
}

// A received word, corrected by the engine.
fn read_word(engine: Engine, word: u32) -> ReadWord
    ensures symbol_value { said result.symbol ≡ meaning (nearest word) }
    ensures changed_value { result.changed ≡ slot_changed word }
{
    let Some(Corrected { codeword, changed }) = codeword::correct_by(engine, word) else {
        return ReadWord {
            symbol: LOST,
            changed: 0,
        };
    };
    let symbol = symbol(codeword);
    ReadWord {
        symbol,
        changed: unless_lost(symbol, changed),
    }
}

// Whether a word corrects to sync: whether at most two bits differ.
pub fn is_sync(word: u32) -> bool
    ensures { result ≡ is_sync (nearest word) }
{
    codeword::sync_distance(word) <= 2
}

// The first batch, from 0, whose first word does not correct to sync, or the number of batches. No Option: `first_unsynced` in specs/ is
// this number, which `Readable.synced` compares.
fn first_unsynced(words: &[u32]) -> usize
    ensures { result ≡ first_unsynced words.now }
{
    let batches = words.len() / 17;
    for q in 0..batches {
        if !is_sync(words[17 * q]) {
            return q;
        }
    }
    batches
}

// How many bits are changed in the sync words of whole batches, 300 at most, that all begin with sync.
fn syncs_changed(words: &[u32]) -> u32
    requires words_len_bound { length words.now ≤ 5100 }
    requires words_len_bound_2 { length words.now / 17 ≤ first_unsynced words.now }
    ensures { result ≡ syncs_changed (sync_word words.now) (length words.now / 17) }
{
    let mut changed = 0;
    // By number: a loop over `chunks_exact(17)` was tried, and its invariant, of what the iterator has left, did not close.
    for q in 0..words.len() / 17 {
        changed += codeword::sync_distance(words[17 * q]);
    }
    changed
}

// The symbols of the slots of whole batches, 300 at most. Answers how many bits are changed.
fn read_slots(engine: Engine, words: &[u32], symbols: &mut [u32]) -> u32
    requires symbols_len_bound { length symbols.old ≤ 16 * (length words.now / 17) }
    requires symbols_len_bound_2 { length symbols.old ≤ 4800 }
    ensures tells { Tells words.now (length symbols.old) symbols.new }
    ensures value { result ≡ slots_changed (slot_word words.now) (length symbols.old) }
{
    let mut changed = 0;
    for (s, symbol) in symbols.iter_mut().enumerate() {
        let r = read_word(engine, words[17 * (s / 16) + 1 + s % 16]);
        *symbol = r.symbol;
        changed += r.changed;
    }
    changed
}

// Writes five digits a group, and answers how many digits they are.
fn write_groups(groups: &[u32], digits: &mut [u8]) -> usize
    requires { 5 * length groups.now ≤ length digits.old }
    ensures value { result ≡ length (fives groups.now) }
    ensures digits_after { digits.new ≡ over digits.old (fives groups.now) }
{
    for (i, group) in groups.iter().enumerate() {
        let start = 5 * i;
        let end = start + 5;
        base::write_digits(&mut digits[start..end], *group);
    }
    5 * groups.len()
}

// Writes a text as pairs of digits, and answers how many digits they are.
fn write_text(c: Coding, groups: &[u32], digits: &mut [u8]) -> usize
    requires { 10 * length groups.now ≤ length digits.old }
    ensures value { result ≡ length (heard_digits c groups.now) }
    ensures digits_after { digits.new ≡ over digits.old (heard_digits c groups.now) }
{
    // There is room, so the 0 never comes.
    text::write_heard(c, groups, digits).unwrap_or(0)
}

// Writes the digits of a page's text, and answers how many they are.
fn write_page(function: u8, groups: &[u32], digits: &mut [u8]) -> usize
    requires { 10 * length groups.now ≤ length digits.old }
    ensures value { result ≡ length (digits_heard function groups.now) }
    ensures digits_after { digits.new ≡ over digits.old (digits_heard function groups.now) }
{
    match function {
        0 => write_text(Coding::Numeric, groups, digits),
        3 => write_text(Coding::Alphanumeric, groups, digits),
        _ => write_groups(groups, digits),
    }
}

// A page's kind, by its function and its groups. Both stay numbers, as `job::Page.kind` does: the contracts of `print_heard` and of
// `job::print_line` take every number.
fn kind(function: u8, groups: &[u32]) -> u8
    requires { function < 4 }
    ensures { result ≡ kind_heard function groups.now }
{
    if groups.is_empty() {
        return function;
    }
    match function {
        0 => 4,
        1 => 6,
        2 => 7,
        _ => 5,
    }
}

// Prints the line of a page, as it was heard, over the front of the bytes, and the digits of its text over the front of the lent digits.
// Nothing is written where there is not room for ten digits a group and for eleven bytes a codeword, the address and each group.
pub fn print_heard(
    identity: u32,
    function: u32,
    groups: &[u32],
    cut: bool,
    digits: &mut [u8],
    out: &mut [u8],
) -> Option<usize>
    ensures value { result ≡ printing_heard (length digits.old) (length out.old) (heard_page identity function groups.now cut) }
    ensures digits_after { digits.new ≡ over digits.old (digits_written (length digits.old) (length out.old) (heard_page identity function groups.now cut)) }
    ensures out_after { out.new ≡ over out.old (line_written (length digits.old) (length out.old) (heard_page identity function groups.now cut)) }
{
    if digits.len() / 10 < groups.len() {
        return None;
    }
    if out.len() / 11 <= groups.len() {
        return None;
    }
    let function = (function % 4) as u8;
    let n = write_page(function, groups, digits);
    let kind = kind(function, groups);
    job::print_line(out, identity, kind, &digits[..n], cut)
}

// Prints the line of the page whose address is in slot a and whose message words fill the slots from there to slot s, over the front
// of the bytes, and answers its length. The digits of its text are written over the front of the lent digits.
fn print_page(
    symbols: &[u32],
    a: usize,
    s: usize,
    cut: bool,
    digits: &mut [u8],
    out: &mut [u8],
) -> usize
    requires { Printable symbols.now a s (length digits.old) (length out.old) }
    ensures value { result ≡ length (line_heard (closed_as cut (page_in symbols.now a s))) }
    ensures out_after { out.new ≡ over out.old (line_heard (closed_as cut (page_in symbols.now a s))) }
{
    let address = symbols[a];
    let frame = (a % 16 / 2) as u32;
    let identity = address / 4 * 8 + frame;
    let first = a + 1;
    let groups = &symbols[first..s];
    // There is room, so the 0 never comes.
    print_heard(identity, address, groups, cut, digits, out).unwrap_or(0)
}

// What a symbol says.
fn said(symbol: u32) -> Meaning
    ensures { result ≡ said symbol }
{
    if LOST <= symbol {
        return Meaning::Lost;
    }
    if 0x10_0000 <= symbol {
        return Meaning::Message(symbol % 0x10_0000);
    }
    if symbol == IDLE {
        return Meaning::Idle;
    }
    Meaning::Address(symbol / 4 * 8, symbol % 4)
}

// What a codeword says.
pub fn codeword_meaning(c: Codeword) -> Meaning
    ensures { result ≡ codeword_meaning c.0 }
{
    let symbol = symbol(c);
    said(symbol)
}

// What a received word says, once corrected by the engine.
pub fn word_meaning(engine: Engine, word: u32) -> Meaning
    ensures { result ≡ meaning (nearest word) }
{
    let r = read_word(engine, word);
    said(r.symbol)
}

// Closes the open page, if any, before slot s: its line is printed behind the others.
fn close(
    p: Progress,
    symbols: &[u32],
    s: usize,
    cut: bool,
    digits: &mut [u8],
    lines: &mut [u8],
) -> Progress
    requires buffers { Buffers symbols.now digits.old lines.old }
    requires s_in_bounds { s ≤ length symbols.now }
    requires kept { Kept symbols.now s (state_by symbols.now s) p lines.old }
    ensures { Kept symbols.now s (closed cut (state_by symbols.now s)) result lines.new }
{
    let Some(a) = p.held else {
        return p;
    };
    let at = p.bytes;
    let n = print_page(symbols, a, s, cut, digits, &mut lines[at..]);
    Progress {
        held: None,
        pages: p.pages + 1,
        bytes: at + n,
        ..p
    }
}

// Hears the word of slot s, by its symbol.
fn hear(p: Progress, symbols: &[u32], s: usize, digits: &mut [u8], lines: &mut [u8]) -> Progress
    requires buffers { Buffers symbols.now digits.old lines.old }
    requires s_in_bounds { s < length symbols.now }
    requires kept { Kept symbols.now s (state_by symbols.now s) p lines.old }
    ensures { Kept symbols.now (s + 1) (state_by symbols.now (s + 1)) result lines.new }
{
    match said(symbols[s]) {
        Meaning::Lost => {
            let mut q = close(p, symbols, s, true, digits, lines);
            q.lost += 1;
            q
        }
        Meaning::Idle => close(p, symbols, s, false, digits, lines),
        Meaning::Address(_, _) => {
            let mut q = close(p, symbols, s, false, digits, lines);
            q.held = Some(s);
            q
        }
        Meaning::Message(_) => hear_messages(p, 1),
    }
}

// Whether a symbol says a message.
fn is_message(symbol: u32) -> bool
    ensures { result ≡ is_message (said symbol) }
{
    matches!(said(symbol), Meaning::Message(_))
}

// Where the message words that begin at slot s end.
fn message_end(symbols: &[u32], s: usize) -> usize
    requires { s ≤ length symbols.now }
    ensures { Messages symbols.now s result }
{
    s + symbols[s..].iter().take_while(|x| is_message(**x)).count()
}

// Where the idle words that begin at slot s end.
fn idle_end(symbols: &[u32], s: usize) -> usize
    requires { s ≤ length symbols.now }
    ensures { Idles symbols.now s result }
{
    s + symbols[s..].iter().take_while(|x| **x == IDLE).count()
}

// n message words heard: with no page open they are orphans.
fn hear_messages(p: Progress, n: usize) -> Progress
    requires { p.orphans + n ≤ 4800 }
    ensures { result ≡ with_messages p n }
{
    match p.held {
        Some(_) => p,
        None => Progress {
            orphans: p.orphans + n as u32,
            ..p
        },
    }
}

// The next slot, from slot s on, that may change more than the number of orphans: with no page open idle words change nothing.
fn quiet_end(p: Progress, symbols: &[u32], s: usize) -> usize
    requires { s ≤ length symbols.now }
    ensures { Quiet p symbols.now s result }
{
    match p.held {
        Some(_) => s,
        None => idle_end(symbols, s),
    }
}

// Hears all slots: the lines of their pages are printed over the front of the lent lines. The end closes an open page, cut short or
// not. Runs of message words, and of idle words with no page open, are passed over in one go.
fn hear_all(symbols: &[u32], cut: bool, digits: &mut [u8], lines: &mut [u8]) -> Progress
    requires { Buffers symbols.now digits.old lines.old }
    ensures { KeptAll cut symbols.now result lines.new }
{
    let mut p = Progress::default();
    let mut s = 0;
    // A loop, since a round passes runs of any length: no iterator has this step.
    loop {
        let e = message_end(symbols, s);
        p = hear_messages(p, e - s);
        let f = quiet_end(p, symbols, e);
        if symbols.len() <= f {
            return close(p, symbols, f, cut, digits, lines);
        }
        p = hear(p, symbols, f, digits, lines);
        s = f + 1;
    }
}

// Reads slots by their symbols: the lines go over the front of the lent lines first, and to the front of the bytes where there is room
// for all of them.
fn read_into(
    symbols: &[u32],
    cut: bool,
    changed: Changes,
    digits: &mut [u8],
    lines: &mut [u8],
    out: &mut [u8],
) -> Result<Read, ReadError>
    requires { Buffers symbols.now digits.old lines.old }
    ensures value { result ≡ printed_into (heard_by cut symbols.now changed) (length out.old) }
    ensures out_after { out.new ≡ over out.old (lines_of result (heard_by cut symbols.now changed)) }
{
    let p = hear_all(symbols, cut, digits, lines);
    let n = p.bytes;
    if out.len() < n {
        return Err(ReadError::NoRoom);
    }
    out[..n].copy_from_slice(&lines[..n]);
    Ok(Read {
        pages: p.pages,
        lost: p.lost,
        orphans: p.orphans,
        changed,
        bytes: n,
    })
}

// Reads whole batches that all begin with sync, with room lent for their slots' symbols, for digits and for lines.
fn read_synced(
    engine: Engine,
    words: &[u32],
    cut: bool,
    symbols: &mut [u32],
    digits: &mut [u8],
    lines: &mut [u8],
    out: &mut [u8],
) -> Result<Read, ReadError>
    requires { Room words.now (length symbols.old) (length digits.old) (length lines.old) }
    ensures value { result ≡ printed_into (heard_stretch cut words.now) (length out.old) }
    ensures out_after { out.new ≡ over out.old (lines_of result (heard_stretch cut words.now)) }
{
    let slots = 16 * (words.len() / 17);
    let changed = Changes {
        slots: read_slots(engine, words, &mut symbols[..slots]),
        syncs: syncs_changed(words),
    };
    read_into(&symbols[..slots], cut, changed, digits, lines, out)
}

// Reads batches that all begin with sync, with room for S slots, D digits and L bytes of lines: three sizes, since Rattle has no computed
// const argument.
fn read_within<const S: usize, const D: usize, const L: usize>(
    engine: Engine,
    words: &[u32],
    cut: bool,
    out: &mut [u8],
) -> Result<Read, ReadError>
    requires room { Room words.now S D L }
    requires few_slots { S ≤ 4800 }
    requires few_digits { D ≤ 48000 }
    requires few_bytes { L ≤ 52800 }
    ensures value { result ≡ printed_into (heard_stretch cut words.now) (length out.old) }
    ensures out_after { out.new ≡ over out.old (lines_of result (heard_stretch cut words.now)) }
{
    let mut symbols = [0u32; S];
    let mut digits = [0u8; D];
    let mut lines = [0u8; L];
    read_synced(
        engine,
        words,
        cut,
        &mut symbols,
        &mut digits,
        &mut lines,
        out,
    )
}

// Reads words that can be read: to clear the room for 300 batches would take longer than to read 16.
fn read_sound(engine: Engine, words: &[u32], cut: bool, out: &mut [u8]) -> Result<Read, ReadError>
    requires { Readable words.now }
    ensures value { result ≡ printed_into (heard_stretch cut words.now) (length out.old) }
    ensures out_after { out.new ≡ over out.old (lines_of result (heard_stretch cut words.now)) }
{
    if words.len() / 17 <= 16 {
        return read_within::<256, 2560, 2816>(engine, words, cut, out);
    }
    read_within::<4800, 48000, 52800>(engine, words, cut, out)
}

// Whether whole batches can be read: number 22 where one does not begin with sync.
fn judge_batches(words: &[u32]) -> Result<(), Fault>
    ensures { result ≡ judge_batches words.now }
{
    let first = first_unsynced(words);
    if first < words.len() / 17 {
        return Err(Fault::Unsynced(first + 1));
    }
    Ok(())
}

// Whether a slice of words can be read: numbers 21, 23, 22.
#[tactic(auto, using(crate::proofs::AnswerLaws::words_many))]
pub fn judge_words(words: &[u32]) -> Result<(), Fault>
    ensures { result ≡ judge_words words.now }
{
    let n = words.len();
    if n == 0 {
        return Err(Fault::Malformed(0));
    }
    if n % 17 != 0 {
        return Err(Fault::Malformed(0));
    }
    if 300 < n / 17 {
        return Err(Fault::TooMany(0));
    }
    judge_batches(words)
}

// A listing's fault as this crate's.
impl From<listing::Fault> for Fault {
    ghost from_gives = { λ why fault. fault ≡ fault_of why };

    fn from(why: listing::Fault) -> Fault {
        match why {
            listing::Fault::Malformed(line) => Fault::Malformed(line),
            listing::Fault::TooMany(line) => Fault::TooMany(line),
        }
    }
}

// Whether what `listing::decode` answers can be read: numbers 21 or 23, then 22 of its batches, which have these words.
pub fn judge_decoded(l: Result<listing::Shape, listing::Fault>, words: &[u32]) -> Result<(), Fault>
    ensures { result ≡ judge_decoded l words.now }
{
    l?;
    judge_batches(words)
}

// Reads what `listing::decode` answers: of the words that it returns those of the batches stand first.
fn read_decoded(
    engine: Engine,
    l: Result<listing::Shape, listing::Fault>,
    words: &[u32],
    out: &mut [u8],
) -> Result<Read, ReadError>
    requires { Decoding l words.now }
    ensures value { result ≡ answered (judge_decoded l (batches_first l words.now)) (heard_in (batches_first l words.now)) (length out.old) }
    ensures out_after { out.new ≡ over out.old (lines_read result (batches_first l words.now)) }
{
    let n = 17 * listing::batch_count(l);
    judge_decoded(l, &words[..n])?;
    read_sound(engine, &words[..n], false, out)
}

// Reads a slice of words as `read_words` does, but that the end closes an open page as cut short, or not.
#[tactic(auto, unfolding(crate::specs::Answers::read_stretch))]
pub fn read_stretch(
    engine: Engine,
    words: &[u32],
    cut: bool,
    out: &mut [u8],
) -> Result<Read, ReadError>
    ensures value { result ≡ read_stretch cut words.now (length out.old) }
    ensures out_after { out.new ≡ over out.old (lines_of result (heard_stretch cut words.now)) }
{
    judge_words(words)?;
    read_sound(engine, words, cut, out)
}

// Reads a slice of words, batches only: the lines of the pages go to the front of the bytes, and what stands behind them keeps its value.
// The engine corrects the slots' words; sync is told, with either, by the bits that differ.
pub fn read_words(engine: Engine, words: &[u32], out: &mut [u8]) -> Result<Read, ReadError>
    ensures value { result ≡ read_words words.now (length out.old) }
    ensures out_after { out.new ≡ over out.old (lines_read result words.now) }
{
    read_stretch(engine, words, false, out)
}

// Reads a listing as `read_words` reads its words.
pub fn read_listing(engine: Engine, listing: &[u8], out: &mut [u8]) -> Result<Read, ReadError>
    ensures value { result ≡ read_listing listing.now (length out.old) }
    ensures out_after { out.new ≡ over out.old (lines_read result (words_of listing.now)) }
{
    let decoded = listing::decode(listing);
    read_decoded(engine, decoded.listing, &decoded.words, out)
}

// The number of a reading in the table; 0 where it is read.
pub fn number(r: Result<Read, ReadError>) -> u32
    ensures { result ≡ number_of r }
{
    match r {
        Ok(_) => 0,
        Err(ReadError::Fault(Fault::Malformed(_))) => 21,
        Err(ReadError::Fault(Fault::TooMany(_))) => 23,
        Err(ReadError::Fault(Fault::Unsynced(_))) => 22,
        Err(ReadError::NoRoom) => 10,
    }
}

// The place of a reading; 0 where it is read.
pub fn place(r: Result<Read, ReadError>) -> usize
    ensures { result ≡ place_of r }
{
    match r {
        Ok(_) => 0,
        Err(ReadError::Fault(Fault::Malformed(line))) => line,
        Err(ReadError::Fault(Fault::TooMany(line))) => line,
        Err(ReadError::Fault(Fault::Unsynced(batch))) => batch,
        Err(ReadError::NoRoom) => 0,
    }
}
