// Rows looked up in the tables by a key, and the rows to store after a DELETE.
// Every function is total: a table is read as far as it has room.
#![tactic(auto)]

ghost use Rattle.std.specs.Prelude.{◌≡◌, min};
ghost use Rattle.rows.specs.Rows.{has_key};
ghost use Rattle.rows.specs.Promises.{index_of};
ghost use Rattle.rules.specs.Tables.{capacity, count, rows};
ghost use Rattle.rules.specs.Keys.{goes, may_be_none};
ghost use Rattle.rules.specs.Promises.Keys.{key_offset, key_bytes};
ghost use Rattle.rules.specs.StoreRange.{gap_of, store_range_of};
ghost use Rattle.rules.specs.Promises.Words.{was, before};

use fields::{ace_rows, cred_rows};
use row_format::capacity_of;
use rules::{ACE_ROWS, Action, CRED_ROWS, Head, Key, StoreRange, Table};

// Rows counted.
// Rules out: the other table's count; the rows that there is room for.
pub fn count_of(h: Head, table: Table) -> usize
    ensures { result ≡ count table h }
{
    match table {
        Table::Creds => usize::from(h.ncreds),
        Table::Aces => usize::from(h.naces),
    }
}

// The row count, capped at the table's capacity.
fn capped_of(h: Head, table: Table) -> usize
    ensures { result ≡ min (count table h) (capacity table) }
{
    count_of(h, table).min(capacity_of(table))
}

// The index of the first row of the table that has the key's bytes from `at` on.
// Rules out: a later row; a row of the other table.
pub fn index_by_key<'a>(
    h: Head,
    creds: &'a [u8; CRED_ROWS],
    aces: &'a [u8; ACE_ROWS],
    table: Table,
    at: usize,
    key: &[u8],
) -> Option<usize>
    ensures { result ≡ index_of (has_key at (was key)) (rows table (before h creds aces)) }
{
    let rows = match table {
        Table::Creds => cred_rows(h.ncreds, creds),
        Table::Aces => ace_rows(h.naces, aces),
    };
    rows.find(at, key)
}

// Whether all rows are meant, which may be none.
// Rules out: a refusal to empty an empty table.
pub fn may_be_none(key: Key) -> bool
    ensures { result ≡ may_be_none key }
{
    matches!(key, Key::All)
}

// Where in a row a key looks.
// Rules out: a subject looked for in a row's number.
pub fn key_offset(key: Key) -> usize
    ensures { result ≡ key_offset key }
{
    match key {
        Key::All | Key::Number => 0,
        Key::Subject => 2,
    }
}

// The bytes that a key looks for: none for all rows.
// Rules out: the body's bytes where all rows are meant.
pub fn key_bytes(key: Key, b: &[u8]) -> &[u8]
    ensures { result.now ≡ key_bytes key (was b) }
{
    match key {
        Key::All => &b[..0],
        Key::Number | Key::Subject => b,
    }
}

// The index of the first row that the key, with the body, picks.
// Rules out: a later row; a row of the other table.
#[tactic(auto, using(rules::proofs::KeyLaws::goes_is))]
pub fn picked<'a>(
    h: Head,
    creds: &'a [u8; CRED_ROWS],
    aces: &'a [u8; ACE_ROWS],
    table: Table,
    key: Key,
    b: &[u8],
) -> Option<usize>
    ensures { result ≡ index_of (goes key (was b)) (rows table (before h creds aces)) }
{
    index_by_key(h, creds, aces, table, key_offset(key), key_bytes(key, b))
}

// The rows from the first that the key picks to the last.
#[tactic(auto, using(crate::proofs::Found::gaps), unfolding(rules::specs::Tables::rows_in))]
fn gap<'a>(
    h: Head,
    creds: &'a [u8; CRED_ROWS],
    aces: &'a [u8; ACE_ROWS],
    table: Table,
    key: Key,
    b: &[u8],
) -> StoreRange
    ensures { result ≡ gap_of (goes key (was b)) (rows table (before h creds aces)) }
{
    let Some(first) = picked(h, creds, aces, table, key, b) else {
        return StoreRange::none();
    };
    StoreRange {
        first,
        count: capped_of(h, table) - first,
    }
}

// The rows to store after the action with this body: from the first deleted row to the last one before it; every other action has none.
// Rules out: rows before the first one deleted; a range for a row that is stored.
pub fn store_range_of<'a>(
    h: Head,
    creds: &'a [u8; CRED_ROWS],
    aces: &'a [u8; ACE_ROWS],
    a: Action,
    b: &[u8],
) -> StoreRange
    ensures { result ≡ store_range_of (before h creds aces) (was b) a }
{
    let Action::Remove(table, key) = a else {
        return StoreRange::none();
    };
    gap(h, creds, aces, table, key, b)
}
