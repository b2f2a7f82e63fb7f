// Runs worked examples of document 01, and both sides of the limits of its rules. Each line of standard input is an example: a
// letter that says what is asked, a space, and the question. The program prints the line and, behind it, what the library answers.
// The small letters w, r and l ask what W, R and L ask, of the slow engine.
#![tactic(auto)]

ghost use Rattle.std.specs.Prelude.{◌≤◌, ◌<◌, length, IfSome};
ghost use Rattle.io.specs.Counts.{IsPrefixLen};

use codeword::{Codeword, Corrected, Engine};
use job::Refused;
use reader::ReadError;
use std::io::Read;
use text::Coding;

fn print(rt: &impl Print, s: &[u8]) {
    let _ = rt.write_all(s);
}

fn print_number(rt: &impl Print, n: u64) {
    let mut digits = [0u8; 20];
    let length = io::decimal(n, &mut digits);
    print(rt, &digits[..length]);
}

// A number in upper-case hexadecimal digits: a word in eight, twenty bits in five.
fn print_digits<const N: usize>(rt: &impl Print, number: u32)
    requires { N ≤ 8 }
{
    let mut digits = [0u8; N];
    base::write_digits(&mut digits, number);
    print(rt, b" ");
    print(rt, &digits);
}

// The number that the digits from `at` to `end` of a slice write; 0 where there are none.
fn number_in(s: &[u8], at: usize, end: usize) -> u32 {
    if at <= end {
        if end <= s.len() {
            return base::hex_number(&s[at..end]);
        }
    }
    0
}

// `A 000009 0`: the address codeword of an identity and a function.
fn address(rt: &impl Print, line: &[u8]) {
    let codeword = Codeword::address(number_in(line, 2, 8), number_in(line, 9, 10));
    print_digits::<8>(rt, codeword.word());
}

// `M 84333`: the message codeword of 20 bits.
fn message(rt: &impl Print, line: &[u8]) {
    print_digits::<8>(rt, Codeword::message(number_in(line, 2, 7)).word());
}

fn print_correction(rt: &impl Print, answer: Option<Corrected>) {
    let Some(Corrected { codeword, changed }) = answer else {
        print(rt, b" refused 20");
        return;
    };
    print_digits::<8>(rt, codeword.word());
    print(rt, b" changed ");
    print_number(rt, u64::from(changed));
}

// `W 00000003`: what a received word reads as, and how many bits are changed.
fn word(rt: &impl Print, engine: Engine, line: &[u8]) {
    print_correction(rt, codeword::correct_by(engine, number_in(line, 2, 10)));
}

// The kind that the digit at an index writes; 0 where there is none.
fn kind_at(line: &[u8], at: usize) -> u32 {
    if at < line.len() {
        return u32::from(base::hex_value(line[at]));
    }
    0
}

// `T 000009 4 3132`: the groups of the text of a page line, the first eight of them.
fn groups(rt: &impl Print, line: &[u8]) {
    if line.len() < 11 {
        return;
    }
    let kind = kind_at(line, 9);
    let digits = &line[11..];
    let n = job::groups(kind, (digits.len() % 65536) as u16);
    let mut first = [0u32; 8];
    job::write_groups(kind, digits, &mut first);
    for group in first.iter().take(n) {
        print_digits::<5>(rt, *group);
    }
}

// `H 4 84333 00000`: the text that two groups say, numeric for the digit 4 and otherwise alphanumeric, between bars.
fn heard(rt: &impl Print, line: &[u8]) {
    let groups = [number_in(line, 4, 9), number_in(line, 10, 15)];
    print(rt, b" |");
    match kind_at(line, 2) {
        4 => print_heard(rt, Coding::Numeric, &groups),
        _ => print_heard(rt, Coding::Alphanumeric, &groups),
    }
    print(rt, b"|");
}

fn print_heard(rt: &impl Print, coding: Coding, groups: &[u32; 2]) {
    let mut digits = [0u8; 20];
    let Some(n) = text::write_heard(coding, groups, &mut digits) else {
        return;
    };
    for i in 0..n / 2 {
        print(rt, &[base::pair_byte(&digits, i, 0)]);
    }
}

// A newline for a bar, and any other byte as it is.
fn newline_for_bar(b: u8) -> u8 {
    match b {
        b'|' => b'\n',
        _ => b,
    }
}

// Writes a question over the front of a longer slice, a newline for each `|`, and answers how many bytes that took.
fn newlines(question: &[u8], out: &mut [u8]) -> usize
    ensures { IsPrefixLen result out.new }
{
    if out.len() <= question.len() {
        return 0;
    }
    for (b, asked) in out.iter_mut().zip(question) {
        *b = newline_for_bar(*asked);
    }
    question.len()
}

fn print_answer(rt: &impl Print, answer: Result<usize, Refused>) {
    match answer {
        Ok(n) => {
            print(rt, b" accepted ");
            print_number(rt, n as u64);
        }
        Err(_) => {
            print(rt, b" refused ");
            print_number(rt, u64::from(job::number(answer)));
            print(rt, b" place ");
            print_number(rt, job::place(answer) as u64);
            print(rt, b" position ");
            print_number(rt, job::position(answer) as u64);
        }
    }
}

// Where the `/` of a question stands.
fn slash(question: &[u8]) -> Option<usize>
    ensures { IfSome result (λ at. at < length question.now) }
{
    question.iter().position(|b| *b == b'/')
}

// The phrase book of a question, which a `/` ends; an empty one where there is no `/`.
fn book_of(question: &[u8]) -> &[u8] {
    match slash(question) {
        Some(end) => &question[..end],
        None => b"",
    }
}

// The job of a question: what stands behind its phrase book, or all of it.
fn job_of(question: &[u8]) -> &[u8] {
    match slash(question) {
        Some(end) => &question[end + 1..],
        None => question,
    }
}

// `J 000009 0|`, or `J 41|4243|/000009 9 01|` with a phrase book: what a job is answered.
fn job(rt: &impl Print, line: &[u8]) {
    if line.len() < 2 {
        return;
    }
    let mut bytes = io::buffer();
    let n = newlines(&line[2..], &mut bytes);
    print_job(rt, &bytes[..n]);
}

// What a question is answered as a job with its book.
fn print_job(rt: &impl Print, question: &[u8]) {
    let answer = job::read_job(job_of(question), book_of(question)).answer;
    print_answer(rt, answer);
}

// `P 41|4243|/000009 9 01|`: the function with which a job's first page is sent, and its text.
fn page(rt: &impl Print, line: &[u8]) {
    if line.len() < 2 {
        return;
    }
    let mut bytes = io::buffer();
    let n = newlines(&line[2..], &mut bytes);
    print_page(rt, &bytes[..n]);
}

// The same of a question.
fn print_page(rt: &impl Print, question: &[u8]) {
    let job = job_of(question);
    let book = book_of(question);
    let first = job::read_job(job, book).pages[0];
    print(rt, b" function ");
    print_number(rt, u64::from(job::function(first.kind)));
    print(rt, b" text ");
    print(rt, job::page_text(job, book, first));
}

// What sending a question as a job with its book reports, and the slots that it writes.
fn print_sent(rt: &impl Print, question: &[u8]) {
    let mut words = [0u32; 5118];
    let mut slots = [0u32; 48];
    let report = transmission::send(job_of(question), book_of(question), &mut words, &mut slots);
    if let Ok(sent) = report {
        print(rt, b" batches ");
        print_number(rt, u64::from(sent.batches));
        print(rt, b" words ");
        print_number(rt, u64::from(sent.words));
        print(rt, b" slots");
        for slot in slots.iter().take(pages_of(question)) {
            print(rt, b" ");
            print_number(rt, u64::from(*slot));
        }
    } else {
        print(rt, b" refused ");
        print_number(rt, u64::from(transmission::number(report)));
    }
}

// `S 00000F 0|`, or with a phrase book: how a job is sent.
fn send(rt: &impl Print, line: &[u8]) {
    if line.len() < 2 {
        return;
    }
    let mut bytes = io::buffer();
    let n = newlines(&line[2..], &mut bytes);
    print_sent(rt, &bytes[..n]);
}

// The number of pages of a question's job with its book; 0 where the job is refused.
fn pages_of(question: &[u8]) -> usize {
    let answer = job::read_job(job_of(question), book_of(question)).answer;
    answer.unwrap_or(0)
}

// A bar for a newline, and any other byte as it is.
fn bar_for_newline(b: u8) -> u8 {
    match b {
        b'\n' => b'|',
        _ => b,
    }
}

// Lines, a bar for each newline.
fn print_bars(rt: &impl Print, lines: &[u8]) {
    for b in lines {
        print(rt, &[bar_for_newline(*b)]);
    }
}

fn print_refused(rt: &impl Print, answer: Result<reader::Read, ReadError>) {
    print(rt, b" refused ");
    print_number(rt, u64::from(reader::number(answer)));
    print(rt, b" place ");
    print_number(rt, reader::place(answer) as u64);
}

fn print_reading(rt: &impl Print, answer: Result<reader::Read, ReadError>, lines: &[u8]) {
    match answer {
        Ok(read) => {
            print(rt, b" pages ");
            print_number(rt, read.pages as u64);
            print(rt, b" lost ");
            print_number(rt, read.lost as u64);
            print(rt, b" orphans ");
            print_number(rt, read.orphans as u64);
            print(rt, b" changed ");
            print_number(rt, read.changed.slots as u64);
            print(rt, b" syncs ");
            print_number(rt, read.changed.syncs as u64);
            print(rt, b" ");
            print_bars(rt, base::part(lines, 0, read.bytes));
        }
        Err(_) => print_refused(rt, answer),
    }
}

// The word at index i of a line, whose words start at its third byte; idle behind the last.
fn word_or_idle(line: &[u8], i: usize) -> u32 {
    if line.len() / 9 < i {
        return Codeword::IDLE.word();
    }
    let at = 9 * i + 2;
    if line.len() < at + 8 {
        return Codeword::IDLE.word();
    }
    number_in(line, at, at + 8)
}

// Fills a slice with the words of a line, and idle behind them.
fn words_in(line: &[u8], words: &mut [u32]) {
    for (i, word) in words.iter_mut().enumerate() {
        *word = word_or_idle(line, i);
    }
}

// `R 7CD215D8 000026EC C2199DEA`: what a batch of these words, idle behind them, reads as.
fn read(rt: &impl Print, engine: Engine, line: &[u8]) {
    let mut words = [0u32; 17];
    words_in(line, &mut words);
    let mut out = io::buffer();
    let answer = reader::read_words(engine, &words, &mut out);
    print_reading(rt, answer, &out);
}

// `L AAAAAAAA AAAAAAAA|..`: what a listing reads as.
fn list(rt: &impl Print, engine: Engine, line: &[u8]) {
    if line.len() < 2 {
        return;
    }
    let mut bytes = io::buffer();
    let n = newlines(&line[2..], &mut bytes);
    let mut out = io::buffer();
    let answer = reader::read_listing(engine, &bytes[..n], &mut out);
    print_reading(rt, answer, &out);
}

// An example, and what the library answers.
fn run(rt: &impl Print, line: &[u8]) {
    print(rt, line);
    if line.len() == 0 {
        print(rt, b"\n");
        return;
    }
    let asked = line[0];
    match asked {
        b'A' => address(rt, line),
        b'M' => message(rt, line),
        b'W' => word(rt, Engine::Fast, line),
        b'w' => word(rt, Engine::Slow, line),
        b'T' => groups(rt, line),
        b'H' => heard(rt, line),
        b'J' => job(rt, line),
        b'P' => page(rt, line),
        b'S' => send(rt, line),
        b'R' => read(rt, Engine::Fast, line),
        b'r' => read(rt, Engine::Slow, line),
        b'L' => list(rt, Engine::Fast, line),
        b'l' => list(rt, Engine::Slow, line),
        _ => {}
    }
    print(rt, b"\n");
}

fn run_all(rt: &impl Print, input: &[u8]) {
    let mut at: usize = 0;
    // By line_end and no `split`, which gives an empty part behind the last newline.
    while at < input.len() {
        let end = base::line_end(input, at);
        run(rt, &input[at..end]);
        at = end + 1;
    }
}

// Reads up to the reader's end, or until the slice is full or a read fails, and answers how many bytes it wrote over the front.
// Not by `read_input` of `program`, on which this crate would then stand for one loop alone.
fn read_full<R: Read>(reader: &mut R, input: &mut [u8]) -> usize
    ensures { IsPrefixLen result input.new }
{
    let mut n = 0;
    // No `for`: a read gives any number of bytes.
    while n < input.len() {
        let Ok(more) = reader.read(&mut input[n..]) else {
            break;
        };
        if more == 0 {
            break;
        }
        n += more;
    }
    n
}

fn main(rt: HostRuntime) {
    let mut input = io::large_buffer();
    let n = read_full(&mut rt.stdin(), &mut input);
    run_all(&rt, &input[..n]);
}
