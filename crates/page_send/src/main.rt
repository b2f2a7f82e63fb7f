// The sending program, `page_send [BOOK]`: a job on standard input, its listing or one line `refused N place P` on standard output.
// `program::send` says which. BOOK is the file of a phrase book; without it there is none.
#![tactic(auto)]

use std::io::Input;
use std::rt::{Env, Files};

// Sends the job on standard input with this phrase book.
fn send_input<R: Input + Print + Eprint>(rt: &R, book: &[u8]) {
    program::run(rt, "page_send", |input| {
        let mut out = [0u8; 46062];
        let n = program::send(input, book, &mut out);
        rt.write_all(&out[..n])
    });
}

// Sends it with the phrase book of a file.
fn send_with<R: Files + Input + Print + Eprint>(rt: &R, path: &[u8]) {
    let mut book = [0u8; 65536];
    let Ok(n) = program::read_file(rt, path, &mut book) else {
        let _ = eprintln!(rt; "page_send: the phrase book can't be read");
        return;
    };
    send_input(rt, &book[..n]);
}

fn main(rt: HostRuntime) {
    let arguments = program::argument_count(&rt);
    if arguments < 2 {
        send_input(&rt, b"");
        return;
    }
    let mut path = [0u8; 4095];
    match program::argument(&rt, 1, &mut path) {
        Some(n) if 0 < n && arguments == 2 => send_with(&rt, &path[..n]),
        _ => {
            let _ = eprintln!(rt; "page_send: usage: page_send [BOOK]");
        }
    }
}
