// The records of a run, taken from the front of the input: each after a 32-bit clock and its 16-bit length.
ghost use Rattle.std.specs.Prelude.{◌≡◌, length};
ghost use Rattle.std.specs.Iterator.{at_most};
ghost use Rattle.rows.specs.Words.{was};
ghost use Rattle.report.specs.Records.{gives};

use fields::{be16, be32, skip};

// A record, and the clock at which it is judged.
#[derive(Clone, Copy)]
pub struct Record<'a> {
    pub clock: u32,
    pub bytes: &'a [u8],
}

// The input ends before the record does.
#[derive(Clone, Copy)]
pub struct Cut;

// The records of an input in their order, up to one that is cut.
#[derive(Drop)]
pub struct Records<'a> {
    rest: &'a [u8],
}

impl<'a> Records<'a> {
    // All records of this input.
    pub fn new(input: &'a [u8]) -> Records<'a>
        ensures { result.rest.now ≡ was input }
    {
        Records { rest: input }
    }
}

impl<'a> Iterator for Records<'a> {
    type Item = Result<Record<'a>, Cut>;

    ghost next_gives = { λ s r t. gives s.rest.now r t.rest.now };

    ghost remaining = { λ s. at_most (length s.rest.now) };

    fn next(&mut self) -> Option<Result<Record<'a>, Cut>> {
        let rest = self.rest;
        if rest.is_empty() {
            return None;
        }
        let end = 6 + be16(skip(rest, 4)) as usize;
        if rest.len() < end {
            self.rest = &rest[..0];
            return Some(Err(Cut));
        }
        self.rest = &rest[end..];
        Some(Ok(Record {
            clock: be32(rest),
            bytes: &rest[6..end],
        }))
    }
}
