// The entries of vectors.bin: a tag, and bytes whose number follows from the tag and from lengths among them.
ghost use Rattle.std.specs.Prelude.{◌≡◌, ◌<◌, length, IfOk};
ghost use Rattle.std.specs.Iterator.{at_most};
ghost use Rattle.rules.specs.Promises.Words.{was};
ghost use Rattle.vectors.specs.Left.{left};

use fields::{be16, byte_at, skip};
use vectors_reader::EntryError;

// What an entry holds.
#[derive(Clone, Copy)]
pub enum Tag {
    Tables,
    Record,
    // the tables that must be reached
    Reached,
    Defaults,
    List,
    OlderList,
    Queue,
    // the queue that must be reached
    QueueReached,
    HandIn,
    Take,
}

impl TryFrom<u8> for Tag {
    type Error = EntryError;

    fn try_from(number: u8) -> Result<Tag, EntryError> {
        match number {
            0 => Ok(Tag::Tables),
            1 => Ok(Tag::Record),
            2 => Ok(Tag::Reached),
            3 => Ok(Tag::Defaults),
            4 => Ok(Tag::List),
            5 => Ok(Tag::OlderList),
            6 => Ok(Tag::Queue),
            7 => Ok(Tag::QueueReached),
            8 => Ok(Tag::HandIn),
            9 => Ok(Tag::Take),
            _ => Err(EntryError::UnknownTag),
        }
    }
}

impl Tag {
    // Bytes of an entry after its tag, if it begins with these.
    fn size(self, s: &[u8]) -> usize {
        match self {
            Tag::Tables | Tag::Reached => tables_size(s),
            Tag::Record => record_size(s),
            Tag::Defaults => defaults_size(s),
            Tag::List => 4 + length_at(s, 0),
            Tag::OlderList => older_size(s),
            Tag::Queue | Tag::QueueReached => 2 + length_at(s, 0),
            Tag::HandIn => 3 + length_at(s, 0),
            Tag::Take => take_size(s),
        }
    }
}

// The length, two bytes, that is at an index.
fn length_at(s: &[u8], at: usize) -> usize
    ensures { result < 65536 }
{
    be16(skip(s, at)) as usize
}

// The head of the tables, length and bytes of the credential rows, length and bytes of the access rows.
fn tables_size(s: &[u8]) -> usize {
    let creds = length_at(s, 84);
    let aces = length_at(s, 86 + creds);
    88 + creds + aces
}

// Clock, length and bytes of the record, room, answer, permission, payload start and length,
// length of the reply, first place and how many, the links and their number, the reply.
fn record_size(s: &[u8]) -> usize {
    let length = length_at(s, 4);
    let reply = length_at(s, 14 + length);
    27 + length + reply
}

// Length, a byte, and bytes of the credential rows, length and bytes of the access rows.
fn defaults_size(s: &[u8]) -> usize {
    let creds = byte_at(s, 0) as usize;
    let aces = byte_at(s, 1 + creds) as usize;
    2 + creds + aces
}

// Length and bytes of an older list, room, answer, length and bytes of the result.
fn older_size(s: &[u8]) -> usize {
    let length = length_at(s, 0);
    let made = length_at(s, 5 + length);
    7 + length + made
}

// Clock, room, the outcome as of a record, the reply, length and bytes of the record taken.
fn take_size(s: &[u8]) -> usize {
    let reply = length_at(s, 12);
    let record = length_at(s, 25 + reply);
    27 + reply + record
}

// An entry: its tag, and the bytes after it.
#[derive(Clone, Copy)]
pub struct Entry<'a> {
    pub tag: Tag,
    pub body: &'a [u8],
}

// The entries of a file in their order, up to an error.
#[derive(Drop)]
pub struct Entries<'a> {
    rest: &'a [u8],
}

impl<'a> Entries<'a> {
    // All entries of a file.
    // Rules out: the first byte left out; no byte read.
    pub fn new(bytes: &'a [u8]) -> Entries<'a>
        ensures { left result ≡ was bytes }
    {
        Entries { rest: bytes }
    }
}

impl<'a> Iterator for Entries<'a> {
    type Item = Result<Entry<'a>, EntryError>;

    ghost remaining = { λ s. at_most (length s.rest.now) };

    fn next(&mut self) -> Option<Result<Entry<'a>, EntryError>> {
        if self.rest.is_empty() {
            return None;
        }
        match first_entry(self.rest) {
            Ok((entry, rest)) => {
                self.rest = rest;
                Some(Ok(entry))
            }
            Err(error) => {
                self.rest = &self.rest[..0];
                Some(Err(error))
            }
        }
    }
}

// The first entry, and what comes after it.
fn first_entry(bytes: &[u8]) -> Result<(Entry, &[u8]), EntryError>
    ensures { IfOk result (λ p. length p.1.now < length bytes.now) }
{
    let (number, bytes) = bytes.split_first().ok_or(EntryError::Cut)?;
    let tag = Tag::try_from(*number)?;
    let (body, rest) = bytes
        .split_at_checked(tag.size(bytes))
        .ok_or(EntryError::Cut)?;
    Ok((Entry { tag, body }, rest))
}
