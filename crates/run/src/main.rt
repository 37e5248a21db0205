// The run program: reads a run from standard input, and writes its text.
// The work is `report::run_text`; no contract can say what is read or written.
#![tactic(auto)]

use std::io;
use std::io::Write;

fn main(rt: HostRuntime) {
    let mut input = [0u8; 32768];
    let n = input::read_full(&mut rt.stdin(), &mut input);
    let mut out = buffer();
    let k = report::run_text(&input[..n], &mut out);
    let _ = io::writer(&rt).write_all(&out[..k]);
}

// Room for the text of every run of at most 32,768 bytes: the header, and four bytes for each byte of the run.
fn buffer() -> [u8; 131092] {
    [0; 131092]
}
