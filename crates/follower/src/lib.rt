// One identity followed (document 02, R-4): the page lines that the reader prints for it, without looking at most of the words.
#![tactic(auto)]

ghost use Rattle.std.specs.Prelude.{◌≡◌, ◌%◌, ◌*◌, ◌≤◌, ◌<◌, length, Ok};
ghost use Rattle.base.specs.Lists.{over};
ghost use Rattle.codeword.specs.Nearest.{nearest};
ghost use Rattle.listing.specs.Words.{words_of};
ghost use Rattle.placement.specs.Placement.{frame_of};
ghost use Rattle.reader.specs.Meaning.{meaning};
ghost use Rattle.reader.specs.Reading.{slot_word};
ghost use Rattle.reader.specs.Answers.{judge_decoded};
ghost use Rattle.reader.specs.Readable.{Readable, batches_first, Decoding};
ghost use Rattle.follower.specs.Pages.{pages_for};
ghost use Rattle.follower.specs.Following.{slot_count, own_said};
ghost use Rattle.follower.specs.Answers.{lines_into, follow_judged, follow_words, follow_listing, lines_of, number_of, place_of};
ghost use Rattle.follower.specs.Progress.{InFrame, Ran, Buffers, Roomy, Printed, Kept};

use codeword::Engine;
use listing::Shape;
use reader::{Fault, Meaning, ReadError};

// How many lines there are of an identity, and how many bytes of them are written.
#[derive(Clone, Copy)]
pub struct Followed {
    pub lines: u32,
    pub bytes: usize,
}

// Why an identity is not followed.
#[derive(Clone, Copy)]
pub enum FollowError {
    // Number 2: it is over 1FFFFF.
    IdentityRange,
    // Number 3: it is reserved.
    IdentityReserved,
    // Numbers 21, 23 and 22: the words or the listing can't be read.
    Unread(Fault),
    // Number 10: the lent slice is shorter than the lines.
    NoRoom,
}

// The slot behind a message's last word, and whether the message is cut short there.
#[derive(Clone, Copy)]
struct Message {
    end: usize,
    cut: bool,
}

// The slot behind a page's last word, and the length of its line.
#[derive(Clone, Copy)]
struct Line {
    end: usize,
    bytes: usize,
}

// The first slot of a frame from slot s on.
fn next_in_frame(frame: usize, s: usize) -> usize
    requires frame_bound { frame < 8 }
    requires s_bound { s ≤ 4800 }
    ensures { InFrame frame s result }
{
    let first = s - s % 16 + 2 * frame;
    if s <= first {
        return first;
    }
    if s == first + 1 {
        return s;
    }
    first + 16
}

// The function of the identity's page whose address is in slot s of its frame; None where the slot holds no address of its own.
fn own_page(identity: u32, words: &[u32], s: usize) -> Option<u32>
    requires { s < slot_count words.now }
    ensures { result ≡ own_said identity (meaning (nearest (slot_word words.now s))) }
{
    match reader::word_meaning(Engine::Fast, words[17 * (s / 16) + 1 + s % 16]) {
        Meaning::Address(upper, function) if upper == identity / 8 * 8 => Some(function),
        _ => None,
    }
}

// Follows a message from slot s on, through all frames and batches: its groups go over the front of the lent ones.
fn follow_message(words: &[u32], s: usize, groups: &mut [u32]) -> Message
    requires s_bound { s ≤ slot_count words.now }
    requires words_in_bounds { slot_count words.now ≤ length groups.old }
    ensures { Ran words.now s groups.new result }
{
    let slots = 16 * (words.len() / 17);
    for e in s..slots {
        match reader::word_meaning(Engine::Fast, words[17 * (e / 16) + 1 + e % 16]) {
            Meaning::Message(group) => groups[e - s] = group,
            Meaning::Lost => return Message { end: e, cut: true },
            Meaning::Idle => return Message { end: e, cut: false },
            Meaning::Address(_, _) => return Message { end: e, cut: false },
        }
    }
    Message {
        end: slots,
        cut: false,
    }
}

// Follows the page of the identity whose address is in slot s, and prints its line over the front of the bytes.
fn follow_page(
    identity: u32,
    function: u32,
    words: &[u32],
    s: usize,
    groups: &mut [u32],
    digits: &mut [u8],
    out: &mut [u8],
) -> Line
    requires { Roomy words.now s function (length groups.old) (length digits.old) (length out.old) }
    ensures { Printed identity function words.now s out.old out.new result }
{
    let first = s + 1;
    let Message { end, cut } = follow_message(words, first, groups);
    let n = end - first;
    let Some(bytes) = reader::print_heard(identity, function, &groups[..n], cut, digits, out) else {
        return Line { end, bytes: 0 };
    };
    Line { end, bytes }
}

// Follows the identity: its lines are printed over the front of the lent ones. While no page of its own is open, only the words of its
// frame are read.
fn follow_all(
    identity: u32,
    words: &[u32],
    groups: &mut [u32],
    digits: &mut [u8],
    lines: &mut [u8],
) -> Followed
    requires { Buffers words.now (length groups.old) (length digits.old) (length lines.old) }
    ensures { Kept (pages_for identity words.now) result lines.new }
{
    let slots = 16 * (words.len() / 17);
    let frame = (identity % 8) as usize;
    let mut count = 0;
    let mut bytes = 0;
    let mut s = next_in_frame(frame, 0);
    // A walk by a variable step, to behind a page's message: no index of a range is counted.
    while s < slots {
        let Some(function) = own_page(identity, words, s) else {
            s = next_in_frame(frame, s + 1);
            continue;
        };
        let line = follow_page(
            identity,
            function,
            words,
            s,
            groups,
            digits,
            &mut lines[bytes..],
        );
        count += 1;
        bytes += line.bytes;
        s = next_in_frame(frame, line.end);
    }
    Followed {
        lines: count,
        bytes,
    }
}

// Follows the identity: its lines go over the front of the lent ones first, and to the front of the bytes where there is room for all of
// them.
fn follow_into(
    identity: u32,
    words: &[u32],
    groups: &mut [u32],
    digits: &mut [u8],
    lines: &mut [u8],
    out: &mut [u8],
) -> Result<Followed, FollowError>
    requires { Buffers words.now (length groups.old) (length digits.old) (length lines.old) }
    ensures value { result ≡ lines_into (pages_for identity words.now) (length out.old) }
    ensures out_after { out.new ≡ over out.old (lines_of result (pages_for identity words.now)) }
{
    let followed = follow_all(identity, words, groups, digits, lines);
    let n = followed.bytes;
    if out.len() < n {
        return Err(FollowError::NoRoom);
    }
    out[..n].copy_from_slice(&lines[..n]);
    Ok(followed)
}

// Follows the identity through at most so many slots, each with room for ten digits and eleven bytes.
fn follow_within<const SLOTS: usize, const DIGITS: usize, const LINES: usize>(
    identity: u32,
    words: &[u32],
    out: &mut [u8],
) -> Result<Followed, FollowError>
    requires slots { slot_count words.now ≤ SLOTS }
    requires slots_bound { SLOTS ≤ 4800 }
    requires digits { DIGITS ≡ 10 * SLOTS }
    requires lines { LINES ≡ 11 * SLOTS }
    ensures value { result ≡ lines_into (pages_for identity words.now) (length out.old) }
    ensures out_after { out.new ≡ over out.old (lines_of result (pages_for identity words.now)) }
{
    let mut groups = [0u32; SLOTS];
    let mut digits = [0u8; DIGITS];
    let mut lines = [0u8; LINES];
    follow_into(identity, words, &mut groups, &mut digits, &mut lines, out)
}

// Follows the identity through words that can be read: to clear the room for 300 batches would take longer than to follow it through 16.
fn follow_sound(identity: u32, words: &[u32], out: &mut [u8]) -> Result<Followed, FollowError>
    requires { Readable words.now }
    ensures value { result ≡ lines_into (pages_for identity words.now) (length out.old) }
    ensures out_after { out.new ≡ over out.old (lines_of result (pages_for identity words.now)) }
{
    if words.len() / 17 <= 16 {
        return follow_within::<256, 2560, 2816>(identity, words, out);
    }
    follow_within::<4800, 48000, 52800>(identity, words, out)
}

// Follows the identity by the words' verdict. Its own refusals come first.
#[tactic(auto, unfolding(crate::specs::Answers::follow_judged))]
fn follow_judged(
    identity: u32,
    v: Result<(), Fault>,
    words: &[u32],
    out: &mut [u8],
) -> Result<Followed, FollowError>
    requires { v ≡ Ok tt → Readable words.now }
    ensures value { result ≡ follow_judged identity v words.now (length out.old) }
    ensures out_after { out.new ≡ over out.old (lines_of result (pages_for identity words.now)) }
{
    if 0x1F_FFFF < identity {
        return Err(FollowError::IdentityRange);
    }
    if job::is_reserved(identity) {
        return Err(FollowError::IdentityReserved);
    }
    v.map_err(FollowError::Unread)?;
    follow_sound(identity, words, out)
}

// Follows the identity through what `listing::decode` answers: of the words that it returns those of the batches stand first.
fn follow_decoded(
    identity: u32,
    l: Result<Shape, listing::Fault>,
    words: &[u32],
    out: &mut [u8],
) -> Result<Followed, FollowError>
    requires { Decoding l words.now }
    ensures value { result ≡ follow_judged identity (judge_decoded l (batches_first l words.now)) (batches_first l words.now) (length out.old) }
    ensures out_after { out.new ≡ over out.old (lines_of result (pages_for identity (batches_first l words.now))) }
{
    let n = 17 * listing::batch_count(l);
    let v = reader::judge_decoded(l, &words[..n]);
    follow_judged(identity, v, &words[..n], out)
}

// Follows the identity through a slice of words, batches only: its lines go to the front of the bytes, and what stands behind them keeps
// its value.
pub fn follow_words(identity: u32, words: &[u32], out: &mut [u8]) -> Result<Followed, FollowError>
    ensures value { result ≡ follow_words identity words.now (length out.old) }
    ensures out_after { out.new ≡ over out.old (lines_of result (pages_for identity words.now)) }
{
    let v = reader::judge_words(words);
    follow_judged(identity, v, words, out)
}

// Follows the identity through a listing as `follow_words` does through its words.
pub fn follow_listing(
    identity: u32,
    listing: &[u8],
    out: &mut [u8],
) -> Result<Followed, FollowError>
    ensures value { result ≡ follow_listing identity listing.now (length out.old) }
    ensures out_after { out.new ≡ over out.old (lines_of result (pages_for identity (words_of listing.now))) }
{
    let decoded = listing::decode(listing);
    follow_decoded(identity, decoded.listing, &decoded.words, out)
}

// The number of an answer in the table; 0 where the identity is followed.
pub fn number(r: Result<Followed, FollowError>) -> u32
    ensures { result ≡ number_of r }
{
    let Err(why) = r else { return 0 };
    match why {
        FollowError::IdentityRange => 2,
        FollowError::IdentityReserved => 3,
        FollowError::Unread(fault) => reader::number(Err(ReadError::Fault(fault))),
        FollowError::NoRoom => 10,
    }
}

// The place of an answer; 0 where the identity is followed.
pub fn place(r: Result<Followed, FollowError>) -> usize
    ensures { result ≡ place_of r }
{
    let Err(why) = r else { return 0 };
    match why {
        FollowError::IdentityRange => 0,
        FollowError::IdentityReserved => 0,
        FollowError::Unread(fault) => reader::place(Err(ReadError::Fault(fault))),
        FollowError::NoRoom => 0,
    }
}
