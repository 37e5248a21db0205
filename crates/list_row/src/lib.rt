// One old row: whether it is bad, how many access rows it becomes, and their bytes.
// The tests are total: a byte past the row's end is 0. Rows are put into a buffer that holds them, from an old row of 25 bytes.
#![tactic(auto)]

ghost use Rattle.std.specs.Prelude.{◌≡◌, ◌++◌, ◌+◌, ◌≤◌, ◌<◌, length, get_or};
ghost use Rattle.rows.specs.Words.{was};
ghost use Rattle.text.specs.Buffer.{Puts};
ghost use Rattle.rows.specs.Rows.{joined};
ghost use Rattle.rules.specs.Bits.{be16};
ghost use Rattle.rules_legacy.specs.OldList.{is_anybody, bad_row};
ghost use Rattle.rules_legacy.specs.Conversion.{entry, connection_entry, entries_of, numbered_from};
ghost use Rattle.rules.specs.Sizes.{ace_row_size};

use fields::{ace, byte_at, skip};
use row_format::is_nil;
use rows::part;
use rules::ACE_ROW;
use text::put;

// Bytes of an old row.
pub const OLD_ROW: usize = 25;

// Where an old row's permission is, with the three zero bits after it.
const FLAGS_AT: usize = 16;

// Where its set of resources is.
const SET_AT: usize = 17;

// Bytes of a subject, which an old row begins with.
const SUBJECT_BYTES: usize = 16;

// Bytes of a set.
const SET_BYTES: usize = 8;

// Every second, 0 to 4,294,967,295.
const EVERY_SECOND: [u8; 8] = [0, 0, 0, 0, 255, 255, 255, 255];

// The byte of the permission and the three zero bits.
fn flags(row: &[u8]) -> u8
    ensures { result ≡ get_or (was row) 16 0 }
{
    byte_at(row, FLAGS_AT)
}

// Whether a zero bit is set or an unknown resource is in the set, which is 13 bytes later than in an access row.
// Rules out: the last zero bit ignored; a set in which only the last resource is tested.
pub fn is_bad(row: &[u8]) -> bool
    ensures { result ≡ bad_row (was row) }
{
    (flags(row) % 8 != 0) | !ace::set_known(skip(row, 13))
}

// Whether the row is for "*".
fn is_anybody(row: &[u8]) -> bool
    ensures { result ≡ is_anybody (was row) }
{
    is_nil(part(row, 0, SUBJECT_BYTES))
}

// How many access rows the row becomes.
// Rules out: one for "*"; two for a UUID.
pub fn made_count(row: &[u8]) -> u16
    ensures { result ≡ length (entries_of (was row)) }
{
    if is_anybody(row) { 2 } else { 1 }
}

// An access row: its number, the subject's kind, the old permission, no wildcards, the old set, the subject, every second.
// The slices of a known length let the compiler copy each part as a whole.
// The kind stays a number, as `entry` takes it: two bits of the row.
fn row_made(number: u16, kind: u8, subject: &[u8], row: &[u8]) -> [u8; ACE_ROW]
    requires { (kind < 4) × (length subject.now ≡ 16) × (length row.now ≡ 25) }
    ensures { result ≡ be16 number ++ entry kind (was subject) (was row) }
{
    let old = &row[..OLD_ROW];
    let [high, low] = number.to_be_bytes();
    let head = [high, low, kind * 64 + flags(old) / 8 * 2, 0];
    let mut made = [0u8; ACE_ROW];
    let p = put(&mut made, 0, &head);
    let p = put(&mut made, p, part(old, SET_AT, SET_BYTES));
    let p = put(&mut made, p, &subject[..SUBJECT_BYTES]);
    put(&mut made, p, &EVERY_SECOND);
    made
}

// That row in the buffer, which holds it, in one copy.
// By `copy_from_slice` a whole conversion takes 1.7 times the instructions.
fn put_row(out: &mut [u8], at: usize, number: u16, kind: u8, subject: &[u8], row: &[u8]) -> usize
    requires { (kind < 4) × (length subject.now ≡ 16) × (length row.now ≡ 25) × (at + ace_row_size ≤ length out.old) }
    ensures { Puts out.old at (be16 number ++ entry kind (was subject) (was row)) out.new result }
{
    let made = row_made(number, kind, subject, row);
    rows_change::put_row(&mut out[at..], ACE_ROW, 0, &made);
    at + ACE_ROW
}

// An access row for a connection.
fn put_connection(out: &mut [u8], at: usize, number: u16, connection: u8, row: &[u8]) -> usize
    requires { (length row.now ≡ 25) × (at + ace_row_size ≤ length out.old) }
    ensures { Puts out.old at (be16 number ++ connection_entry connection (was row)) out.new result }
{
    let mut subject = [0u8; SUBJECT_BYTES];
    subject[15] = connection;
    put_row(out, at, number, 2, &subject, row)
}

// The access rows that the row becomes, numbered from `number` on: one for a UUID, and for "*" one for each connection.
// Rules out: anon-clear before auth-crypt; one number for both.
pub fn put_made(out: &mut [u8], at: usize, number: u16, row: &[u8]) -> usize
    requires { (number < 65535)
        × (length row.now ≡ 25)
        × (at + length (joined (numbered_from number (entries_of row.now))) ≤ length out.old) }
    ensures { Puts out.old at (joined (numbered_from number (entries_of (was row)))) out.new result }
{
    if is_anybody(row) {
        let p = put_connection(out, at, number, 1, row);
        return put_connection(out, p, number + 1, 0, row);
    }
    put_row(out, at, number, 0, &row[..SUBJECT_BYTES], row)
}
