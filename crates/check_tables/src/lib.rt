// Whether tables are sound.
// The head, then each table: room for its rows, zeros after them, each row storable, distinct numbers.
#![tactic(auto)]

ghost use Rattle.std.specs.Prelude.{◌≡◌, [], ◌*◌, ◌≤◌, length};
ghost use Rattle.rows.specs.Rows.{rows_of, every};
ghost use Rattle.rules.specs.declared.Table.TheVariants.{Creds, Aces};
ghost use Rattle.rules.specs.Tables.{stride, storable, capacity, rows_sound, head_sound, sound, tables_of, table_size};
ghost use Rattle.rules.specs.Promises.Words.{was, seen};

use row_format::{all_aces_storable, all_creds_sound, capacity_of, is_nil, stride_of};
use rows::all_zero;
use rows_distinct::distinct;
use rules::{Head, State, Table, TablesView};

// Whether each of `count` rows could be stored by a body, where all of them are there.
#[inline(always)]
fn each_storable(table: Table, rows: &[u8], count: usize) -> bool
    requires { count * stride table ≤ length rows.now }
    ensures { result ≡ every (storable table) (rows_of (stride table) count (was rows)) }
{
    match table {
        Table::Creds => all_creds_sound(rows, count),
        Table::Aces => all_aces_storable(rows, count),
    }
}

// Whether each of the first `count` rows is a row that a body could store; a row that is cut short is not.
// Rules out: the last row not looked at; a row of the other table.
#[tactic(auto, using(crate::proofs::CutShort::too_few))]
pub fn rows_storable(table: Table, rows: &[u8], count: usize) -> bool
    ensures { result ≡ every (storable table) (rows_of (stride table) count (was rows)) }
{
    count <= rows.len() / stride_of(table) && each_storable(table, rows, count)
}

// Whether the table is sound: room for its rows, each storable, zeros after them, distinct numbers.
// Inlined, as the walk over its rows is: what is done for each row then knows the row's length.
#[tactic(auto, using(rules::proofs::Answers::rows_counted), unfolding(rules::specs::Tables::rows_sound))]
#[inline(always)]
fn rows_sound(table: Table, count: usize, bytes: &[u8]) -> bool
    requires { length bytes.now ≡ table_size table }
    ensures { result ≡ rows_sound table count (was bytes) }
{
    let stride = stride_of(table);
    count <= capacity_of(table)
        && each_storable(table, bytes, count)
        && all_zero(bytes, count * stride)
        && distinct(bytes, stride, count)
}

#[tactic(auto, unfolding(rules::specs::Tables::head_sound))]
fn head_sound(h: Head) -> bool
    ensures { result ≡ head_sound h }
{
    let owned = u8::from(!is_nil(&h.devowner));
    State::RFOTM <= h.state
        && h.state <= State::SRESET
        && h.owned == owned
        && (h.state == State::RFOTM || h.owned == 1)
}

// Rules out: tables with a count over the capacity; tables with two rows of one number.
#[tactic(auto, unfolding(rules::specs::Tables::sound))]
pub fn tables_sound(tables: TablesView<'_>) -> bool
    ensures { result ≡ sound (seen tables.entry) }
{
    let TablesView { head, creds, aces } = tables;
    head_sound(head)
        && rows_sound(Table::Creds, usize::from(head.ncreds), creds)
        && rows_sound(Table::Aces, usize::from(head.naces), aces)
}
