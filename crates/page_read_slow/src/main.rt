// The reading program, on the slow engine: a listing on standard input, its page lines in slot order or one line `refused N place P` on
// standard output. `program::read` says which. Two programs, one for each engine, since request R-14 asks for the slow one too.
#![tactic(auto)]

use codeword::Engine;

fn main(rt: HostRuntime) {
    program::run(&rt, "page_read_slow", |input| {
        let mut out = [0u8; 48000];
        let n = program::read(Engine::Slow, input, &mut out);
        rt.write_all(&out[..n])
    });
}
