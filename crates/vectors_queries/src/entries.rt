// The entries of queries.bin: a tag, a length, and that many bytes.
ghost use Rattle.std.specs.Prelude.{◌≡◌, ◌<◌, length};
ghost use Rattle.std.specs.Iterator.{at_most};
ghost use Rattle.rules.specs.Promises.Words.{was};
ghost use Rattle.vectors_queries.specs.Left.{left};

use fields::{be16, byte_at, skip};
use vectors_reader::EntryError;

// What an entry holds.
#[derive(Clone, Copy)]
pub enum Tag {
    Tables,
    Store,
    Image,
    // a question of isolation
    Question,
    Step,
    Current,
    Run,
}

impl TryFrom<u8> for Tag {
    type Error = EntryError;

    fn try_from(number: u8) -> Result<Tag, EntryError> {
        match number {
            0 => Ok(Tag::Tables),
            1 => Ok(Tag::Store),
            2 => Ok(Tag::Image),
            3 => Ok(Tag::Question),
            4 => Ok(Tag::Step),
            5 => Ok(Tag::Current),
            6 => Ok(Tag::Run),
            _ => Err(EntryError::UnknownTag),
        }
    }
}

// An entry: its tag, and the bytes after their length.
#[derive(Clone, Copy)]
pub struct Entry<'a> {
    pub tag: Tag,
    pub body: &'a [u8],
}

// Not one type with that of `vectors`: there the size follows from the tag, and an unknown tag ends the file.
// The entries of a file in their order, up to one that is cut. One whose tag is not known is an error, and more follow.
#[derive(Drop)]
pub struct Entries<'a> {
    rest: &'a [u8],
}

impl<'a> Entries<'a> {
    // All entries of a file.
    // Rules out: the first byte left out; no byte read.
    pub fn new(bytes: &'a [u8]) -> Entries<'a>
        ensures { left result ≡ was bytes }
    {
        Entries { rest: bytes }
    }
}

impl<'a> Iterator for Entries<'a> {
    type Item = Result<Entry<'a>, EntryError>;

    ghost remaining = { λ s. at_most (length s.rest.now) };

    fn next(&mut self) -> Option<Result<Entry<'a>, EntryError>> {
        if self.rest.is_empty() {
            return None;
        }
        let size = 3 + be16(skip(self.rest, 1)) as usize;
        let Some((entry, rest)) = self.rest.split_at_checked(size) else {
            self.rest = &self.rest[..0];
            return Some(Err(EntryError::Cut));
        };
        self.rest = rest;
        let body = skip(entry, 3);
        Some(Tag::try_from(byte_at(entry, 0)).map(|tag| Entry { tag, body }))
    }
}
