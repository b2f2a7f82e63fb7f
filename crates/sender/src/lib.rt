// The sender: a job's words one at a time, from a state that the caller keeps (document 01, "Placement").
#![tactic(auto)]

ghost use Rattle.std.specs.Prelude.{◌≡◌, false, ◌+◌, ◌≤◌, ltb, length, get_or};
ghost use Rattle.base.specs.Lists.{over, tab};
ghost use Rattle.base.specs.Search.{least};
ghost use Rattle.codeword.specs.Code.{codeword, message_bits};
ghost use Rattle.job.specs.Line.{kind_sent};
ghost use Rattle.job.specs.Message.{group_from};
ghost use Rattle.job.specs.Submission.{with_book};
ghost use Rattle.job.specs.Job.{job_of, reading_of};
ghost use Rattle.placement.specs.Placement.{may_start};
ghost use Rattle.transmission.specs.Sending.{sendings_of};
ghost use Rattle.sender.specs.declared.Answer.TheVariants.{Word};
ghost use Rattle.sender.specs.Step.{is_set, page_wrong, run_wrong, declined, in_slot, sync_due, finished, step_of};
ghost use Rattle.sender.specs.Pages.{Joined, first_below};
ghost use Rattle.sender.specs.Start.{words_of, pages_from, cursor_at, no_pages, opening_of, words_by, started_of};

use codeword::Codeword;
use job::Refused;

// Where the transmission stands. A flag is set where it is not 0: flags are bytes, since C keeps the state (include/spuggenor.h), of which
// any bytes must be a value.
#[repr(C)]
#[derive(Clone, Copy)]
pub struct Cursor {
    // The next slot, counted through the batches, sync not counted.
    pub slot: u32,
    // The page sent last.
    pub page: u32,
    // The next of its message words, counted from 0, where its message is running.
    pub word: u32,
    // How many words of the preamble are still to come.
    pub preamble: u8,
    // Flag: the batch's sync is out and its first slot is not.
    pub synced: u8,
    // Flag: a message is running.
    pub running: u8,
    // Flag: the last slot held a message codeword. Where no message is running, the next slot is the pause after it.
    pub message: u8,
}

// The pages of a job, which no step alters. Arrays side by side: C's layout (include/spuggenor.h).
#[repr(C)]
#[derive(Clone, Copy)]
pub struct PageTable {
    // How many pages there are. What stands behind them is not examined.
    pub count: u32,
    // Each page's address codeword.
    pub addresses: [u32; 48],
    // Where its message words start, and how many it has.
    pub starts: [u16; 48],
    pub lengths: [u16; 48],
    // The frame of its address.
    pub frames: [u8; 48],
}

// The state: 16,628 bytes without padding, of which every pattern is a value.
#[repr(C)]
#[derive(Clone, Copy)]
pub struct Sender {
    pub cursor: Cursor,
    pub pages: PageTable,
    // Flags, bytes as the cursor's: the page is sent.
    pub sent: [u8; 48],
    // The message words of all pages.
    pub words: [u32; 4032],
}

// What a step answers. No Result of an Option: no caller passes one of the three on by `?`, and `Ok(None)` says less than `Done`.
#[derive(Clone, Copy)]
pub enum Answer {
    // The next word.
    Word(u32),
    // All words are out.
    Done,
    // The state is none of a sender: number 11.
    Refused,
}

// A job's answer, and the state that it gives. No Result: a refused job gives a state too, of which `NoStepping` speaks.
#[derive(Clone, Copy)]
pub struct Started {
    pub answer: Result<usize, Refused>,
    pub state: Sender,
}

// A job's answer, and the state that it gives, without the message words. No Result: `start_with` promises this of a refused job too.
#[derive(Clone, Copy)]
pub struct Opening {
    pub answer: Result<usize, Refused>,
    pub cursor: Cursor,
    pub pages: PageTable,
    pub sent: [u8; 48],
}

// A step's answer and the state that it leaves.
#[derive(Clone, Copy)]
pub struct Stepped {
    pub answer: Answer,
    pub state: Sender,
}

// ---- number 11

// Where message words end, and 63 more: 4,096 or more exactly where they end beyond 4,032.
fn lifted_end(start: u16, length: u16) -> u32
    ensures { result ≡ start + length + 63 }
{
    u32::from(start) + u32::from(length) + 63
}

impl PageTable {
    // The bits of all frames, joined: over 7 exactly where a frame is.
    fn frames_joined(&self) -> u8
        requires { self.now.count ≤ 48 }
        ensures { Joined (λ i. get_or self.now.frames i 0) self.now.count result }
    {
        let frames = &self.frames[..self.count as usize];
        let mut joined = 0;
        for frame in frames {
            joined |= *frame;
        }
        joined
    }

    // The bits of all lifted ends, joined: 4,096 or more exactly where one is.
    fn ends_joined(&self) -> u32
        requires { self.now.count ≤ 48 }
        ensures { Joined (λ i. get_or self.now.starts i 0 + get_or self.now.lengths i 0 + 63) self.now.count result }
    {
        let mut joined = 0;
        // By index: over a zip of the two arrays the proof of the invariant did not close.
        for i in 0..self.count as usize {
            joined |= lifted_end(self.starts[i], self.lengths[i]);
        }
        joined
    }

    // Whether a page's frame is over 7, or its message words end beyond 4,032. All pages are looked at, several at a time.
    fn has_wrong_page(&self) -> bool
        requires { self.now.count ≤ 48 }
        ensures { result ≡ ltb (least (λ i. page_wrong (get_or self.now.frames i 0) (get_or self.now.starts i 0) (get_or self.now.lengths i 0)) self.now.count) self.now.count }
    {
        let frame_over = 7 < self.frames_joined();
        let words_beyond = 4095 < self.ends_joined();
        frame_over || words_beyond
    }

    // Whether the running page is not counted, or does not have the running word.
    fn lacks_word(&self, c: Cursor) -> bool
        requires { self.now.count ≤ 48 }
        ensures { result ≡ run_wrong self.now c }
    {
        c.running != 0
            && (self.count <= c.page || u32::from(self.lengths[c.page as usize]) <= c.word)
    }

    // Whether a step is declined, whatever the addresses are.
    #[tactic(auto, unfolding(crate::specs::Step::declined, crate::specs::Step::wrong_at))]
    fn declines(&self, c: Cursor) -> bool
        ensures { result ≡ declined self.now c }
    {
        48 < self.count || self.has_wrong_page() || self.lacks_word(c) || 4800 < c.slot
    }
}

// ---- the step

impl Cursor {
    // Whether sync comes next.
    fn sync_due(self) -> bool
        ensures { result ≡ sync_due self }
    {
        self.synced == 0 && self.slot % 16 == 0
    }
}

impl Sender {
    // Whether all is out and the last slot held no message codeword.
    fn is_finished(&self) -> bool
        requires { declined self.now.pages self.now.cursor ≡ false }
        ensures { result ≡ finished self.now.pages self.now.sent self.now.cursor }
    {
        self.cursor.message == 0
            && self.cursor.running == 0
            && !self.sent[..self.pages.count as usize].contains(&0)
    }

    // The first page that may start in the slot. Directly behind a message it is a pause.
    fn page_to_start(&self) -> Option<usize>
        requires { self.now.pages.count ≤ 48 }
        ensures { result ≡ first_below (λ i. may_start (get_or self.now.sent i 0) (get_or self.now.pages.frames i 0) (get_or self.now.pages.lengths i 0) (is_set self.now.cursor.message) self.now.cursor.slot) self.now.pages.count }
    {
        let pause = self.cursor.message != 0;
        (0..self.pages.count as usize).find(|i| {
            placement::may_start(
                u32::from(self.sent[*i]),
                self.pages.frames[*i],
                u32::from(self.pages.lengths[*i]),
                pause,
                self.cursor.slot,
            )
        })
    }

    // The word of a slot in which no message is running: the address of the first page that may start, or idle.
    fn open_slot(&mut self) -> u32
        requires sound { declined self.old.pages self.old.cursor ≡ false }
        requires running_value { self.old.cursor.running ≡ 0 }
        ensures { in_slot self.old ≡ record { answer = Word result; state = self.new } }
    {
        let start = self.page_to_start();
        self.cursor.slot += 1;
        self.cursor.synced = 0;
        self.cursor.message = 0;
        let Some(k) = start else {
            return Codeword::IDLE.word();
        };
        self.sent[k] = 1;
        self.cursor.page = k as u32;
        self.cursor.word = 0;
        self.cursor.running = u8::from(0 < self.pages.lengths[k]);
        self.pages.addresses[k]
    }

    // The running message's next codeword.
    fn next_codeword(&mut self) -> u32
        requires sound { declined self.old.pages self.old.cursor ≡ false }
        requires running_value { self.old.cursor.running ≡ 0 → ⊥ }
        ensures { in_slot self.old ≡ record { answer = Word result; state = self.new } }
    {
        let k = self.cursor.page as usize;
        let at = self.pages.starts[k] as usize + self.cursor.word as usize;
        self.cursor.slot += 1;
        self.cursor.synced = 0;
        self.cursor.word += 1;
        self.cursor.running = u8::from(self.cursor.word < u32::from(self.pages.lengths[k]));
        self.cursor.message = 1;
        self.words[at]
    }
}

// One step of a state where the caller keeps it: number 11, a word of the preamble, and then before a batch the end or sync, and its
// slots. One flag at most and the cursor are written, and one message word is read.
pub fn step(s: &mut Sender) -> Answer
    ensures { (result ≡ (step_of s.old).answer) × (s.new ≡ (step_of s.old).state) }
{
    if s.pages.declines(s.cursor) {
        return Answer::Refused;
    }
    if s.cursor.preamble != 0 {
        s.cursor.preamble -= 1;
        return Answer::Word(0xAAAA_AAAA);
    }
    if s.cursor.sync_due() {
        if s.is_finished() {
            return Answer::Done;
        }
        s.cursor.synced = 1;
        return Answer::Word(Codeword::SYNC.word());
    }
    if s.cursor.running != 0 {
        return Answer::Word(s.next_codeword());
    }
    Answer::Word(s.open_slot())
}

// One step of a state that is passed and returned.
pub fn step_value(s: Sender) -> Stepped
    ensures { result ≡ step_of s }
{
    let mut state = s;
    let answer = step(&mut state);
    Stepped { answer, state }
}

// The same by its other name, which stays since docs/CLAIMS.md names both.
pub fn step_owned(state: Sender) -> Stepped
    ensures { result ≡ step_of state }
{
    step_value(state)
}

// ---- the start

// The message codewords of a text's first n groups, over the front of a slice.
fn write_message(kind: u32, text: &[u8], n: u16, out: &mut [u32])
    requires { n ≤ length out.old }
    ensures { out.new ≡ over out.old (tab (λ g. codeword (message_bits (group_from (kind_sent kind) text.now g))) n) }
{
    let front = &mut out[..n as usize];
    job::write_groups(kind, text, front);
    for word in front.iter_mut() {
        *word = Codeword::message(*word).word();
    }
}

// The table of an accepted job's n pages; their message codewords go over the front of a slice.
fn lay_out<'a>(
    job: &'a [u8],
    book: &'a [u8],
    read: &job::Pages,
    n: usize,
    words: &mut [u32],
) -> PageTable
    requires read_value { (read.now ≡ reading_of (with_book job.now book.now)) × (job_of (with_book job.now book.now) ≡ Ok n) }
    requires words_len { length words.old ≡ 4032 }
    ensures value { result ≡ pages_from (sendings_of (with_book job.now book.now)) }
    ensures words_after { words.new ≡ over words.old (words_of (sendings_of (with_book job.now book.now))) }
{
    let mut table = no_pages();
    table.count = n as u32;
    let mut at = 0;
    for (i, page) in read.pages[..n].iter().enumerate() {
        let groups = job::groups(page.kind, page.length as u16);
        table.addresses[i] = Codeword::address(page.identity, job::function(page.kind)).word();
        table.starts[i] = at as u16;
        table.lengths[i] = groups as u16;
        table.frames[i] = (page.identity % 8) as u8;
        let text = job::page_text(job, book, *page);
        write_message(page.kind, text, groups as u16, &mut words[at..]);
        at += groups;
    }
    table
}

// A table of no pages.
fn no_pages() -> PageTable
    ensures { result ≡ no_pages }
{
    PageTable {
        count: 0,
        addresses: [0; 48],
        starts: [0; 48],
        lengths: [0; 48],
        frames: [0; 48],
    }
}

// The cursor before the first of so many words of a preamble.
fn cursor_at(preamble: u8) -> Cursor
    ensures { result ≡ cursor_at preamble }
{
    Cursor {
        slot: 0,
        page: 0,
        word: 0,
        preamble,
        synced: 0,
        running: 0,
        message: 0,
    }
}

// The answer to a job with its phrase book, which is empty where there is none, and the state from which the steps give its words: the
// message words where the caller keeps them, and the rest returned. A refused job leaves the message words as they were.
pub fn start_with<'a>(job: &'a [u8], book: &'a [u8], words: &mut [u32; 4032]) -> Opening
    ensures value { result ≡ opening_of (started_of (with_book job.now book.now)) }
    ensures words_after { words.new ≡ words_by (job_of (with_book job.now book.now)) (started_of (with_book job.now book.now)).state.words words.old }
{
    let read = job::read_job(job, book);
    let answer = read.answer;
    let unsent = [0u8; 48];
    match answer {
        Ok(n) => {
            *words = [0u32; 4032];
            let pages = lay_out(job, book, &read, n, words);
            Opening {
                answer,
                cursor: cursor_at(18),
                pages,
                sent: unsent,
            }
        }
        Err(_) => Opening {
            answer,
            cursor: cursor_at(0),
            pages: no_pages(),
            sent: unsent,
        },
    }
}

// The answer to a job with its phrase book, which is empty where there is none, and the state from which the steps give its words.
pub fn start<'a>(job: &'a [u8], book: &'a [u8]) -> Started
    ensures { result ≡ started_of (with_book job.now book.now) }
{
    let mut words = [0u32; 4032];
    let Opening {
        answer,
        cursor,
        pages,
        sent,
    } = start_with(job, book, &mut words);
    Started {
        answer,
        state: Sender {
            cursor,
            pages,
            sent,
            words,
        },
    }
}
