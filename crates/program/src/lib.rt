// What the programs do: standard input in, for the sending one with a phrase book and for the following one with an identity, for the
// coverage one files instead, and the bytes out that are printed (document 01, "The two programs", and requests R-4, R-6, R-10 and R-12).
// Each program is one call of `send`, `read`, `follow`, `receive` or `cover`, before the last of which each file is added by
// `coverage::add`. Around it `run` reads the input and has the answer printed; the coverage program, which reads files, does without it.
#![tactic(auto)]

ghost use Rattle.std.specs.Prelude.{◌≡◌, ◌+◌, ◌≤◌, ◌<◌, length, take, IfOk, IfSome};
ghost use Rattle.std.specs.Io.KnownBytes.{Consumes, IsAtEnd};
ghost use Rattle.io.specs.Counts.{IsPrefixLen};
ghost use Rattle.base.specs.Lists.{over};
ghost use Rattle.job.specs.Submission.{with_book};
ghost use Rattle.program.specs.Input.{bytes_read};
ghost use Rattle.program.specs.CoverageText.{coverage_text};
ghost use Rattle.program.specs.Prints.{is_long, refusal_line, send_prints, read_prints, follow_prints, receive_prints, cover_prints, identity_named};

use codeword::Engine;
use coverage::{AddError, Coverage};
use printed::Printed;
use std::env::FillError;
use std::io::{Input, Read};
use std::rt::{Env, Files};
use std::{fs, io, str};

mod printed;

// A read failed, or a file can't be opened: behind so many bytes.
#[derive(Clone, Copy, Debug, PartialEq, Eq)]
pub struct Unread {
    pub bytes: usize,
}

// Reads up to the reader's end, or until the slice is full or a read fails. Where the reader's bytes are known, those that it gave stand at
// the front, and are all where the slice isn't full and no read failed; of standard input and of files no contract can say which they are.
fn read_into<R: Read>(reader: &mut R, input: &mut [u8]) -> Result<usize, Unread>
    ensures in_bounds { IsPrefixLen (bytes_read result) input.new }
    ensures bytes { Consumes (R.remaining reader.old) (R.remaining reader.new) (take (bytes_read result) input.new) }
    ensures end { IfOk result (λ n. n < length input.new → IsAtEnd (R.remaining reader.new)) }
{
    let mut n = 0;
    // No `for`: a read gives any number of bytes.
    while n < input.len() {
        let Ok(more) = reader.read(&mut input[n..]) else {
            return Err(Unread { bytes: n });
        };
        if more == 0 {
            break;
        }
        n += more;
    }
    Ok(n)
}

// Reads standard input. There is room for one byte more than an input may have, so that a longer one is told.
pub fn read_input<R: Read>(reader: &mut R, input: &mut [u8; 65537]) -> Result<usize, Unread>
    ensures in_bounds { IsPrefixLen (bytes_read result) input.new }
    ensures bytes { Consumes (R.remaining reader.old) (R.remaining reader.new) (take (bytes_read result) input.new) }
    ensures end { IfOk result (λ n. n < 65537 → IsAtEnd (R.remaining reader.new)) }
{
    read_into(reader, input)
}

// Reads a file, which fails where it can't be opened or read, and where its name is no UTF-8. Of a long one only the first 65,536 bytes are
// read: of a phrase book what stands behind the first 48,101 changes nothing (specs/BookFront.antt), of a listing what stands behind the
// first 46,557 (specs/ListingFront.antt).
pub fn read_file<R: Files>(files: &R, path: &[u8], bytes: &mut [u8; 65536]) -> Result<usize, Unread>
    ensures { IsPrefixLen (bytes_read result) bytes.new }
{
    let opened = match str::from_utf8(path) {
        Ok(path) => fs::open(files, path).ok(),
        Err(_) => None,
    };
    let Some(mut file) = opened else {
        return Err(Unread { bytes: 0 });
    };
    read_into(&mut file, bytes)
}

// Reads standard input and has it printed. Where the one can't be read or the other fails, standard error is told by the program's name.
pub fn run<R: Input + Eprint, F: FnOnce(&[u8]) -> io::Result<()>>(rt: &R, name: &str, print: F)
    requires { F.IsAlwaysCallable print }
{
    let mut input = [0u8; 65537];
    let Ok(n) = read_input(&mut rt.reader(), &mut input) else {
        let _ = eprintln!(rt; "{name}: standard input can't be read");
        return;
    };
    if print(&input[..n]).is_err() {
        let _ = eprintln!(rt; "{name}: standard output can't be written");
    }
}

// How many arguments a program was given, its own name among them.
pub fn argument_count<E: Env>(env: &E) -> usize {
    for i in 0..usize::MAX {
        if let Err(FillError::NotPresent) = env.arg(i, &mut []) {
            return i;
        }
    }
    usize::MAX
}

// Writes an argument over the front of a slice, and answers how many bytes it has; none where there is no such argument, or it doesn't fit.
pub fn argument<E: Env>(env: &E, i: usize, out: &mut [u8]) -> Option<usize>
    ensures { IfSome result (λ n. IsPrefixLen n out.new) }
{
    env.arg(i, out).ok()
}

// Whether an input is over 65,536 bytes: number 24.
fn is_long(input: &[u8]) -> bool
    ensures { result ≡ is_long input.now }
{
    65536 < input.len()
}

// Writes the line of a refusal over the front of a slice, and answers how many bytes it has.
fn write_refusal(number: u32, place: usize, position: usize, out: &mut [u8]) -> usize
    requires { 80 ≤ length out.old }
    ensures value { result ≡ length (refusal_line number place position) }
    ensures out_after { out.new ≡ over out.old (refusal_line number place position) }
{
    let mut line = Printed::new();
    line.text(b"refused ");
    line.number(u64::from(number));
    line.text(b" place ");
    line.number(place as u64);
    line.position(number, position);
    line.text(b"\n");
    line.write(out)
}

// The same with a whole report.
fn write_coverage(c: Coverage, out: &mut [u8]) -> usize
    requires { 2210 ≤ length out.old }
    ensures value { result ≡ length (coverage_text c) }
    ensures out_after { out.new ≡ over out.old (coverage_text c) }
{
    let mut report = Printed::new();
    for frame in 0u32..8 {
        report.frame(&c, frame);
    }
    report.sync(&c);
    report.listings(&c);
    report.write(out)
}

// `send`, `read`, `follow` and `receive` have no common frame: a contract that takes a closure has to say what it returns and writes.

// What the sending program prints for its standard input, a job, with its phrase book, which is empty where there is none, over the front of
// the bytes; answers how many they are.
pub fn send<'a>(input: &'a [u8], book: &'a [u8], out: &mut [u8; 46062]) -> usize
    ensures value { result ≡ length (send_prints (with_book input.now book.now)) }
    ensures out_after { out.new ≡ over out.old (send_prints (with_book input.now book.now)) }
    ensures prefix_len { IsPrefixLen result out.new }
{
    if is_long(input) {
        return write_refusal(24, 0, 0, out);
    }
    let answer = job_listing::list_job(input, book, out);
    let number = job_listing::number(answer);
    let place = job_listing::place(answer);
    let position = job_listing::position(answer);
    match answer {
        Ok(bytes) => bytes,
        Err(_) => write_refusal(number, place, position, out),
    }
}

// What a reading program prints for its standard input; answers how many bytes they are.
pub fn read(engine: Engine, input: &[u8], out: &mut [u8; 48000]) -> usize
    ensures value { result ≡ length (read_prints input.now) }
    ensures out_after { out.new ≡ over out.old (read_prints input.now) }
    ensures prefix_len { IsPrefixLen result out.new }
{
    if is_long(input) {
        return write_refusal(24, 0, 0, out);
    }
    let answer = reader::read_listing(engine, input, out);
    let number = reader::number(answer);
    let place = reader::place(answer);
    match answer {
        Ok(read) => read.bytes,
        Err(_) => write_refusal(number, place, 0, out),
    }
}

// The identity that the following program's argument names: six upper-case digits, or none.
pub fn identity(argument: &[u8]) -> Option<u32>
    ensures { result ≡ identity_named argument.now }
{
    if argument.len() != 6 {
        return None;
    }
    base::hex_word(argument)
}

// What the following program prints for an identity and its standard input; answers how many bytes they are.
pub fn follow(identity: u32, input: &[u8], out: &mut [u8; 48000]) -> usize
    ensures value { result ≡ length (follow_prints identity input.now) }
    ensures out_after { out.new ≡ over out.old (follow_prints identity input.now) }
    ensures prefix_len { IsPrefixLen result out.new }
{
    if is_long(input) {
        return write_refusal(24, 0, 0, out);
    }
    let answer = follower::follow_listing(identity, input, out);
    let number = follower::number(answer);
    let place = follower::place(answer);
    match answer {
        Ok(followed) => followed.bytes,
        Err(_) => write_refusal(number, place, 0, out),
    }
}

// What the receiving program prints for its standard input, a recording's bits; answers how many bytes they are.
pub fn receive(input: &[u8], out: &mut [u8; 48300]) -> usize
    ensures value { result ≡ length (receive_prints input.now) }
    ensures out_after { out.new ≡ over out.old (receive_prints input.now) }
    ensures prefix_len { IsPrefixLen result out.new }
{
    if is_long(input) {
        return write_refusal(24, 0, 0, out);
    }
    let answer = receiver::receive(input, out);
    let number = receiver::number(answer);
    match answer {
        Ok(totals) => totals.bytes,
        Err(_) => write_refusal(number, 0, 0, out),
    }
}

// What the coverage program prints for its last answer and the report then; answers how many bytes they are.
pub fn cover(answer: Result<(), AddError>, coverage: Coverage, out: &mut [u8; 2210]) -> usize
    ensures value { result ≡ length (cover_prints answer coverage) }
    ensures out_after { out.new ≡ over out.old (cover_prints answer coverage) }
    ensures prefix_len { IsPrefixLen result out.new }
{
    let number = coverage::number(answer);
    let place = coverage::place(answer);
    match answer {
        Ok(()) => write_coverage(coverage, out),
        Err(_) => write_refusal(number, place, 0, out),
    }
}
