// Placement of a job's pages in frames and batches: document 01, "Placement", with the pause after a message (R-3).
#![tactic(auto)]

ghost use Rattle.std.specs.Prelude.{◌≡◌, true, not, cond, ◌&&◌, map, pred, ◌*◌, ◌%◌, eqb, length, replicate};
ghost use Rattle.base.specs.Lists.{over};
ghost use Rattle.placement.specs.Placement.{is_sendable, job_of, may_start, state_at, batches, slots, batches_in, slots_in};
ghost use Rattle.placement.specs.Searching.{starts_at, FirstFrom};

// Every mark, one more than a slot, to the slot.
// Marks and no Option: the slots are written over the lent numbers themselves, and `may_start`, which docs/CLAIMS.md names, takes a mark.
fn unmark(marks: &mut [u32])
    ensures { marks.new ≡ map pred marks.old }
{
    for mark in marks.iter_mut() {
        *mark = mark.saturating_sub(1);
    }
}

// Whether a page with this mark, frame and number of message codewords may start in this slot: in a pause only a tone may. The rule has
// this one home; the library's placement and its steps ask it.
#[tactic(auto, unfolding(crate::specs::Placement::may_start))]
pub fn may_start(mark: u32, frame: u8, words: u32, pause: bool, slot: u32) -> bool
    ensures { result ≡ may_start mark frame words pause slot }
{
    // A sent page leaves first, so that a search passes over it at once.
    if mark != 0 {
        return false;
    }
    let here = (slot % 16 / 2) as u8;
    frame == here && (!pause || words == 0)
}

// Where a frame's next search starts: where one ended that started at `from`, or again at `from` after a pause, which passes over pages
// with a message.
fn search_from(pause: bool, from: usize, end: usize) -> usize
    ensures { result ≡ cond pause from end }
{
    if pause { from } else { end }
}

// Whether a batch ends before this slot, the slot before held no message codeword, none is left, and all n pages are sent.
fn at_end(slot: u32, message: bool, left: u32, sent: usize, n: usize) -> bool
    ensures { result ≡ (eqb (slot % 16) 0 && not message && eqb left 0 && eqb sent n) }
{
    slot % 16 == 0 && !message && left == 0 && sent == n
}

// Whether a job can be sent, by its pages' frames and numbers of message codewords.
fn is_sendable(frames: &[u8], words: &[u32]) -> bool
    ensures { result ≡ is_sendable frames.now words.now }
{
    if words.len() != frames.len() || 48 < frames.len() {
        return false;
    }
    frames.iter().all(|&frame| frame < 8)
        && words.iter().map(|&count| u64::from(count)).sum::<u64>() <= 4032
}

// The first page, from the page `from` on, that may start in this slot.
fn first_from(
    from: usize,
    marks: &[u32],
    frames: &[u8],
    words: &[u32],
    pause: bool,
    slot: u32,
) -> Option<usize>
    requires marks_length { length marks.now ≡ length frames.now }
    requires words_length { length words.now ≡ length frames.now }
    ensures { FirstFrom (starts_at marks.now frames.now words.now pause slot) from (length frames.now) result }
{
    (from..frames.len()).find(|&i| may_start(marks[i], frames[i], words[i], pause, slot))
}

// Goes through the slots and answers the number of batches. A page's mark, 0 at first, becomes one more than its address slot.
// Every page of a frame below the frame's entry in `next` is sent, so the search for the frame's next page starts there.
fn run(frames: &[u8], words: &[u32], marks: &mut [u32]) -> u32
    requires words_value { is_sendable frames.now words.now ≡ true }
    requires marks_value { marks.old ≡ replicate (length frames.now) 0 }
    ensures value { result ≡ batches (job_of frames.now words.now) }
    ensures marks_after { marks.new ≡ (state_at (job_of frames.now words.now) (16 * result)).sent }
{
    let n = frames.len();
    let mut next = [0usize; 8];
    let mut slot: u32 = 0;
    let mut left: u32 = 0;
    let mut sent: usize = 0;
    let mut pause = false;
    // No `for`: how many slots there are is what it finds.
    loop {
        let message = 0 < left;
        if message {
            left -= 1;
        } else {
            let frame = (slot % 16 / 2) as usize;
            let from = next[frame];
            let start = first_from(from, marks, frames, words, pause, slot);
            next[frame] = search_from(pause, from, start.unwrap_or(n));
            if let Some(page) = start {
                marks[page] = slot + 1;
                left = words[page];
                sent += 1;
            }
        }
        pause = message;
        slot += 1;
        if at_end(slot, message, left, sent, n) {
            break;
        }
    }
    slot / 16
}

// Places a job as `place` does, where `out` has just one place a page.
fn place_exact(frames: &[u8], words: &[u32], out: &mut [u32]) -> u32
    requires words_value { is_sendable frames.now words.now ≡ true }
    requires out_len { length out.old ≡ length frames.now }
    ensures value { result ≡ batches (job_of frames.now words.now) }
    ensures out_after { out.new ≡ slots (job_of frames.now words.now) }
{
    out.fill(0);
    let batches = run(frames, words, out);
    unmark(out);
    batches
}

// Places a job, given by its pages' frames and numbers of message codewords: the slots of the addresses go to the front of `out`, in
// the job's order, and the answer is the number of batches, which is 1 or more. Where the job cannot be sent, or `out` has fewer places
// than the job has pages, there is no answer and nothing is written.
// Two lists and no struct of both: `Limits`, `batches_in` and `slots_in` speak of two lists.
#[tactic(auto, using(crate::proofs::Placing::no_room, crate::proofs::Placing::unsendable, crate::proofs::Placing::placed_in))]
pub fn place(frames: &[u8], words: &[u32], out: &mut [u32]) -> Option<u32>
    ensures value { result ≡ batches_in frames.now words.now (length out.old) }
    ensures out_after { out.new ≡ over out.old (slots_in frames.now words.now (length out.old)) }
{
    let pages = frames.len();
    if out.len() < pages {
        return None;
    }
    if !is_sendable(frames, words) {
        return None;
    }
    Some(place_exact(frames, words, &mut out[..pages]))
}
