// What comes in from outside, read into a buffer of the caller's.
#![tactic(auto)]

ghost use Rattle.std.specs.Prelude.{◌≡◌, ◌≤◌, length, IfSome};

use std::io::Read;
use std::rt::Files;
use std::{fs, io};

// Reads until the buffer is full, the input ends or a read fails. The result is how many bytes stand at the buffer's beginning.
// Rules out: a count that goes past the buffer.
pub fn read_full<R: Read>(input: &mut R, buf: &mut [u8]) -> usize
    ensures part { result ≤ length buf.new }
    ensures room { length buf.new ≡ length buf.old }
{
    // A loop by hand: `read_exact` does not say how many bytes came before the end, and `read_to_end` asks for a heap.
    let mut done = 0;
    while done < buf.len() {
        let n = input.read(&mut buf[done..]).unwrap_or(0);
        if n == 0 {
            return done;
        }
        done += n;
    }
    done
}

// The same of a file. None says that it could not be opened; standard error then has why.
// Rules out: a count that goes past the buffer.
pub fn read_file(
    rt: &(impl Files + Eprint + AllocGlobal),
    path: &str,
    buf: &mut [u8],
) -> Option<usize>
    ensures part { IfSome result (λ n. n ≤ length buf.new) }
    ensures room { length buf.new ≡ length buf.old }
{
    match fs::open(rt, path) {
        Ok(mut file) => Some(read_full(&mut file, buf)),
        Err(error) => {
            report(rt, path, &error);
            None
        }
    }
}

// Says on standard error what could not be read, and why, in the system's words.
fn report(rt: &(impl Eprint + AllocGlobal), path: &str, error: &io::Error) {
    if let Ok(text) = format!(in rt.alloc(); "{error}") {
        let said = text.as_str();
        let said = said
            .split_once(" (os error ")
            .map_or(said, |(words, _)| words);
        let _ = eprintln!(rt; "{path}: {said}");
    }
}
