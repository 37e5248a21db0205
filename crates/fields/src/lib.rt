// Total readers of records and rows: a field past the end is 0, and a part ends where the bytes end.
// One reader of packed bits serves every named field.
#![tactic(auto)]

pub mod ace;
pub mod asserted;
mod bits;
pub mod body;
pub mod cred;
pub mod record;

ghost use Rattle.std.specs.Prelude.{◌≡◌, min, drop};
ghost use Rattle.rows.specs.Listed.{listed};
ghost use Rattle.rules.specs.declared.Table.TheVariants.{Creds, Aces};
ghost use Rattle.rules.specs.Tables.{rows_in};
ghost use Rattle.rules.specs.Promises.Words.{was};
ghost use Rattle.rules.specs.Bits.{bits};

pub use bits::byte_at;
use bits::{double_field, field};
use rows::Rows;
use rules::{ACE_ROW, ACE_ROWS, ACES, CRED_ROW, CRED_ROWS, CREDS};

// The row count, capped at the table's capacity.
// Rules out: all that are counted; one fewer.
pub fn capped(count: u8, most: u8) -> usize
    ensures { result ≡ min count most }
{
    if count < most {
        count as usize
    } else {
        most as usize
    }
}

// The credential rows that count, of as many as there is room for.
// Rules out: a row past those that count; as many rows as the table holds.
pub fn cred_rows(count: u8, creds: &[u8; CRED_ROWS]) -> Rows<'_>
    ensures { listed result ≡ rows_in Creds count (was creds) }
{
    Rows::new(creds, CRED_ROW, capped(count, CREDS))
}

// The access rows that count, of as many as there is room for.
// Rules out: a row past those that count; rows of the other table's length.
pub fn ace_rows(count: u8, aces: &[u8; ACE_ROWS]) -> Rows<'_>
    ensures { listed result ≡ rows_in Aces count (was aces) }
{
    Rows::new(aces, ACE_ROW, capped(count, ACES))
}

// All bytes after the first `n`.
// Rules out: the bytes from n + 1 on; a fault where there are fewer than n.
pub fn skip(s: &[u8], n: usize) -> &[u8]
    ensures { result.now ≡ drop n (was s) }
{
    if s.len() < n {
        return &s[..0];
    }
    &s[n..]
}

// The 16-bit number that the bytes start with.
// Rules out: the low byte first; a refusal of a lone byte.
pub fn be16(s: &[u8]) -> u16
    ensures { result ≡ bits (was s) 0 16 }
{
    field(s, 0, 16)
}

// The 32-bit number that the bytes start with.
// Rules out: the low bytes first; a refusal of fewer than four bytes.
pub fn be32(s: &[u8]) -> u32
    ensures { result ≡ bits (was s) 0 32 }
{
    double_field(s, 0)
}
