// What the programs of test vectors share: numbers and tables as their files have them, and the count of what differs.
// Any bytes are tables.
#![tactic(auto)]

ghost use Rattle.std.specs.Prelude.{◌≡◌, ◌+◌, min};
ghost use Rattle.rules.specs.Bits.{bits};
ghost use Rattle.rules.specs.Promises.Words.{was};
ghost use Rattle.vectors_reader.specs.Reader.{counted, after_counted, tables_in};
ghost use Rattle.vectors_reader.specs.Tally.{next_entry, one_differs, compared};

use fields::{be16, be32, byte_at, skip};
use rows::part;
use rules::{ACE_ROWS, CRED_ROWS, Tables};

// The 64-bit number that the bytes start with.
// Rules out: the low half first; a refusal of fewer than eight bytes.
pub fn be64(s: &[u8]) -> u64
    ensures { result ≡ bits (was s) 0 64 }
{
    let high = be32(s);
    let low = be32(skip(s, 4));
    high as u64 * 4294967296 + low as u64
}

// The bytes after their length, which is the first two.
// Rules out: the length among them; a byte after them.
pub fn counted(s: &[u8]) -> &[u8]
    ensures { result.now ≡ counted (was s) }
{
    part(s, 2, be16(s) as usize)
}

// All after these.
// Rules out: the last of them again; the byte after them left out.
pub fn after_counted(s: &[u8]) -> &[u8]
    ensures { result.now ≡ after_counted (was s) }
{
    skip(skip(s, 2), be16(s) as usize)
}

// The fields of the head, one after the other, then the credential rows and the access rows.
// Rules out: the rows of one kind in the other's place; a byte of the head read late.
pub fn tables_of(bytes: &[u8]) -> Tables
    ensures { result ≡ tables_in (was bytes) }
{
    let rows = skip(bytes, 84);
    let mut devowner = [0; 16];
    let mut rowners = [0; 64];
    let mut creds = [0; CRED_ROWS];
    let mut aces = [0; ACE_ROWS];
    text::put(&mut devowner, 0, skip(bytes, 4));
    text::put(&mut rowners, 0, skip(bytes, 20));
    text::put(&mut creds, 0, counted(rows));
    text::put(&mut aces, 0, counted(after_counted(rows)));
    Tables {
        state: byte_at(bytes, 0),
        owned: byte_at(bytes, 1),
        ncreds: byte_at(bytes, 2),
        naces: byte_at(bytes, 3),
        devowner,
        rowners,
        creds,
        aces,
    }
}

// One more, or the largest number.
// Rules out: a count that begins again at 0.
pub fn more(n: u64) -> u64
    ensures { result ≡ min (n + 1) 18446744073709551615 }
{
    n.saturating_add(1)
}

// Why a file has no entry at a place: the entry is cut, or its tag is none of the file's.
#[derive(Clone, Copy)]
pub enum EntryError {
    Cut,
    UnknownTag,
}

// The number of the entry that is looked at, the first being 1, and how many entries differ so far.
#[derive(Clone, Copy, Default)]
pub struct Tally {
    pub entry: u64,
    pub differences: u64,
}

impl Tally {
    // Goes on to the next entry.
    // Rules out: an entry that is left out; a difference forgotten.
    pub fn advance(&mut self)
        ensures { self.new ≡ next_entry self.old }
    {
        self.entry = more(self.entry);
    }

    // Says which entry differs, and counts it.
    // Rules out: a difference that is not counted.
    pub fn differ(&mut self, rt: &impl Print)
        ensures { self.new ≡ one_differs self.old }
    {
        let entry = self.entry;
        let _ = println!(rt; "entry {entry} differs");
        self.differences = more(self.differences);
    }

    // The same where an entry was compared, and is not as the file has it.
    // Rules out: each entry taken as the same.
    pub fn compare(&mut self, rt: &impl Print, is_same: bool)
        ensures { self.new ≡ compared is_same self.old }
    {
        if !is_same {
            self.differ(rt);
        }
    }
}
