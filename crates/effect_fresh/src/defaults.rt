// Fresh tables with the build's default rows: two lists of bytes, each with at most two rows in the form of their longest bodies.
// A list that is not good counts as none.
ghost use Rattle.std.specs.Prelude.{◌≡◌, ◌/◌, length, replicate};
ghost use Rattle.rows.specs.Words.{was};
ghost use Rattle.text.specs.Buffer.{written, Puts};
ghost use Rattle.rows.specs.Rows.{joined, packed};
ghost use Rattle.rules.specs.Tables.{tables_of, longest, row_from, table_size};
ghost use Rattle.rules.specs.Defaults.{listed, good_list, default_rows, fresh};
ghost use Rattle.rules.specs.Promises.Supplied.{supplied};

use check_tables::rows_storable;
use row_format::stride_of;
use rows::{Rows, part};
use rows_distinct::distinct;
use rules::{ACE_ROW, ACE_ROWS, CRED_BODY, CRED_ROWS, DefaultLists, Head, Table, Tables};
use text::put;

// Bytes of the longest body that stores a row, in which a list has its rows.
fn longest_of(table: Table) -> usize
    ensures { result ≡ longest table }
{
    match table {
        Table::Creds => CRED_BODY,
        Table::Aces => ACE_ROW,
    }
}

// What follows a body in a row: slots without a role.
const NO_ROLES: [u8; 16] = [0; 16];

// Writes the row that a body of the longest form is.
fn put_listed_row(table: Table, out: &mut [u8], at: usize, body: &[u8]) -> usize
    ensures { Puts out.old at (row_from table (was body)) out.new result }
{
    let p = put(out, at, body);
    let more = stride_of(table) - longest_of(table);
    put(out, p, part(&NO_ROLES, 0, more))
}

// How many whole bodies the list has.
fn bodies_in(table: Table, list: &[u8]) -> usize
    ensures { result ≡ length (was list) / longest table }
{
    list.len() / longest_of(table)
}

// Writes the rows of a list, in the form of the tables.
fn put_listed(table: Table, out: &mut [u8], list: &[u8]) -> usize
    ensures { Puts out.old 0 (joined (listed table (was list))) out.new result }
{
    let mut p = 0;
    for body in Rows::new(list, longest_of(table), bodies_in(table, list)).iter() {
        p = put_listed_row(table, out, p, body);
    }
    p
}

// Whether the list, with these rows over a table of zeros, counts.
#[tactic(auto, using(crate::proofs::DefaultLaws::good_steps), unfolding(rules::specs::Defaults::good_list))]
fn good_list(table: Table, list: &[u8], rows: &[u8]) -> bool
    requires { rows.now ≡ written (replicate (table_size table) 0) 0 (joined (listed table list.now)) }
    ensures { result ≡ good_list table (was list) }
{
    let n = bodies_in(table, list);
    n <= 2
        && list.len() % longest_of(table) == 0
        && rows_storable(table, rows, n)
        && distinct(rows, stride_of(table), n)
}

// Puts the default rows of a list into an empty table, and says how many they are.
#[tactic(auto, using(crate::proofs::DefaultLaws::default_steps))]
fn put_defaults(table: Table, out: &mut [u8], list: &[u8]) -> u8
    requires { out.old ≡ replicate (table_size table) 0 }
    ensures value { result ≡ length (default_rows table (was list)) }
    ensures out_value { out.new ≡ packed (table_size table) (default_rows table (was list)) }
{
    put_listed(table, out, list);
    if good_list(table, list, out) {
        return bodies_in(table, list) as u8;
    }
    rows_change::clear(out);
    0
}

// The tables of a new terminal, made in the rows that are passed in: the empty tables, whatever stood there, and the default rows.
// Rules out: a third row taken; a list with a bad row taken by half; a byte of the old rows left.
#[tactic(auto, unfolding(rules::specs::Defaults::fresh, rules::specs::Tables::empty, rules::specs::Bodies::nil))]
pub fn fresh_in(
    creds: &mut [u8; CRED_ROWS],
    aces: &mut [u8; ACE_ROWS],
    lists: DefaultLists<'_>,
) -> Head
    ensures { tables_of result creds.new aces.new ≡ fresh (supplied lists.entry) }
{
    let empty = Tables::empty();
    // each by a name: an array field that is put in place straight has no proof
    let (no_creds, no_aces) = (empty.creds, empty.aces);
    *creds = no_creds;
    *aces = no_aces;
    let ncreds = put_defaults(Table::Creds, creds, lists.creds);
    let naces = put_defaults(Table::Aces, aces, lists.aces);
    Head {
        ncreds,
        naces,
        ..empty.head()
    }
}

// The tables of a new terminal of a build with these lists of default rows.
// Rules out: the rows of one list in the other's table.
pub fn fresh(lists: DefaultLists<'_>) -> Tables
    ensures { result ≡ fresh (supplied lists.entry) }
{
    let mut creds = [0; CRED_ROWS];
    let mut aces = [0; ACE_ROWS];
    let head = fresh_in(&mut creds, &mut aces, lists);
    Tables::from_parts(head, creds, aces)
}
