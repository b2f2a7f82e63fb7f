// The receiving program: a recording's bits on standard input, its page lines in slot order or one line `refused N place P` on standard
// output. `program::receive` says which.
#![tactic(auto)]

fn main(rt: HostRuntime) {
    program::run(&rt, "page_receive", |input| {
        let mut out = [0u8; 48300];
        let n = program::receive(input, &mut out);
        rt.write_all(&out[..n])
    });
}
