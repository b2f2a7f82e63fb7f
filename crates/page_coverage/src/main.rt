// The coverage program, `page_coverage FILE...`: the report of the files' listings, or one line `refused N place P`, on standard output.
// `program::cover` says which. A file that can't be read is named on standard error, and nothing is printed.
#![tactic(auto)]

use coverage::Covered;
use std::rt::{Env, Files};

// Adds the listing of a file to what the files before it add up to; none where it can't be read, which standard error is told.
fn add_file<R: Files, E: Print>(
    rt: &R,
    stderr: &E,
    covered: Covered,
    path: &[u8],
) -> Option<Covered> {
    let mut bytes = [0u8; 65536];
    let Ok(n) = program::read_file(rt, path, &mut bytes) else {
        let _ = stderr.write_all(b"page_coverage: ");
        let _ = stderr.write_all(path);
        let _ = stderr.write_all(b" can't be read\n");
        return None;
    };
    Some(coverage::add(covered.coverage, &bytes[..n]))
}

// Adds the listing of the file that an argument names.
fn add_argument<R: Env + Files, E: Print>(
    rt: &R,
    stderr: &E,
    covered: Covered,
    i: usize,
) -> Option<Covered> {
    let mut path = [0u8; 4095];
    match program::argument(rt, i, &mut path) {
        Some(n) if 0 < n => add_file(rt, stderr, covered, &path[..n]),
        _ => {
            let _ = stderr.write_all(
                b"page_coverage: a file's name is empty or over 4,095 bytes\n",
            );
            None
        }
    }
}

// Prints what all files add up to.
fn print_report<R: Print + Eprint>(rt: &R, covered: Covered) {
    let mut out = [0u8; 2210];
    let answer = covered.answer;
    let n = program::cover(answer, covered.coverage, &mut out);
    if rt.write_all(&out[..n]).is_err() {
        let _ = eprintln!(rt; "page_coverage: standard output can't be written");
    }
}

fn main(rt: HostRuntime) {
    let mut covered = Covered {
        answer: Ok(()),
        coverage: coverage::empty(),
    };
    for i in 1..program::argument_count(&rt) {
        let Some(next) = add_argument(&rt, &rt.stderr(), covered, i) else {
            return;
        };
        covered = next;
    }
    print_report(&rt, covered);
}
