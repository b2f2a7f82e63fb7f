// The following program, `page_follow IDENTITY`: a listing on standard input, the page lines of that identity in slot order or one line
// `refused N place P` on standard output. `program::follow` says which. IDENTITY is six upper-case hexadecimal digits.
#![tactic(auto)]

use std::io::Input;
use std::rt::Env;

// Follows the identity through the listing on standard input.
fn follow_input<R: Input + Print + Eprint>(rt: &R, identity: u32) {
    program::run(rt, "page_follow", |input| {
        let mut out = [0u8; 48000];
        let n = program::follow(identity, input, &mut out);
        rt.write_all(&out[..n])
    });
}

// The identity of the one argument there must be.
fn named<E: Env>(env: &E) -> Option<u32> {
    if program::argument_count(env) != 2 {
        return None;
    }
    let mut argument = [0u8; 6];
    let n = program::argument(env, 1, &mut argument)?;
    program::identity(&argument[..n])
}

fn main(rt: HostRuntime) {
    let Some(identity) = named(&rt) else {
        let _ = eprintln!(rt; "page_follow: usage: page_follow IDENTITY");
        return;
    };
    follow_input(&rt, identity);
}
