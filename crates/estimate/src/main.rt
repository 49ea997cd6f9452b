// The office's program: a cohort file on standard input, its listing on standard output.
#![tactic(auto)]

ghost use Rattle.estimate.specs.Input.{Within};

use paper::limits::MOST_BYTES;
use report::TEXT_BYTES;
use std::io;
use std::io::{Print, Read, Stderr, Stdin, Stdout};

// Reads until the buffer is full or the input ends, and answers how many bytes were read. Not inlined: the search for the best set, which is inlined
// into main, then stands where the processor takes less time for it (docs/DESIGN-PASS.md, "Speed").
#[inline(never)]
fn read_input(mut from: Stdin, file: &mut [u8]) -> io::Result<usize>
    ensures { Within result file.new }
{
    let mut n = 0;
    // How much a read gives is not known before, so this is no `for`.
    while n < file.len() {
        match from.read(&mut file[n..])? {
            0 => break,
            more => n += more,
        }
    }
    Ok(n)
}

// What is said on the error stream; nobody is left to be told where that fails.
fn complain(err: Stderr, what: &[u8]) {
    let _ = err.write_all(what);
}

// Writes the listing of a file. A text buffer of its length is accepted, whatever the file: `room` (printed/proofs/Promised.antt).
fn list(out: Stdout, err: Stderr, file: &[u8]) {
    let mut text = [0u8; TEXT_BYTES];
    if let Ok(length) = report::report(file, &mut text) {
        if out.write_all(&text[..length]).is_err() {
            complain(err, b"estimate: the listing cannot be written\n");
        }
    }
}

// One byte more than is accepted is read, so that a file that is too long is seen.
fn main(rt: HostRuntime) {
    let mut file = [0u8; MOST_BYTES + 1];
    match read_input(rt.stdin(), &mut file) {
        Ok(n) => list(rt.stdout(), rt.stderr(), &file[..n]),
        Err(_) => complain(rt.stderr(), b"estimate: the file cannot be read\n"),
    }
}
