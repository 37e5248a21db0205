// The test of a list of access rows that the provisioning program writes: checks 19, then 20 and 21 row by row.
// The first refusal is returned immediately, with its row. Total: any bytes are a list.
#![tactic(auto)]

ghost use Rattle.std.specs.Prelude.{◌≡◌, not, ◌||◌, [], ◌∷◌, ◌*◌, ◌≤◌, length};
ghost use Rattle.rows.specs.Words.{was};
ghost use Rattle.rows.specs.Rows.{rows_of};
ghost use Rattle.rules.specs.declared.Table.TheVariants.{Aces};
ghost use Rattle.rules.specs.Tables.{storable};
ghost use Rattle.rules.specs.Checks.{verdict};
ghost use Rattle.rules_lists.specs.Lists.{excessive, tested_of, rows_tested, list_tested};
ghost use Rattle.rules.specs.Sizes.{ace_row_size};
ghost use Rattle.list_validation.specs.Answers.{result_for};

use fields::ace;
use permission_row::row_alters;
use row_format::ace_storable;
use rows::part;
use rows_distinct::before_repeat;
use rules::{ACE_ROW, ACES, Check, Subject};
use rules_lists::ListError;

// Whether the row gives a role or a connection create, update or delete on a security resource.
#[tactic(auto, unfolding(rules_lists::specs::Lists::excessive))]
fn excessive(row: &[u8]) -> bool
    ensures { result ≡ excessive (was row) }
{
    match ace::kind(row) {
        Subject::Role | Subject::Connection => row_alters(row),
        Subject::Uuid | Subject::Other => false,
    }
}

// Checks 20 and 21 of a row; `again` says whether an earlier row has its number.
fn check_row(row: &[u8], again: bool) -> Check
    ensures { result ≡ verdict ((20, (not (storable Aces (was row)) || again)) ∷ (21, excessive (was row)) ∷ []) }
{
    let unfit = !ace_storable(row) | again;
    let c = Check::refuse_if(20, unfit);
    let Check::Pass = c else {
        return c;
    };
    Check::refuse_if(21, excessive(row))
}

// The rows of a list whose size is good.
fn test_rows(rows: &[u8], count: usize) -> Result<(), ListError>
    requires { count * ace_row_size ≤ length rows.now }
    ensures reported { tested_of result ≡ rows_tested [] (rows_of ace_row_size count (was rows)) }
    ensures answer { result ≡ result_for (rows_tested [] (rows_of ace_row_size count (was rows))) }
{
    let repeat = before_repeat(rows, ACE_ROW, count);
    for i in 0..count {
        let row = part(rows, i * ACE_ROW, ACE_ROW);
        if let Check::Refuse(fault) = check_row(row, i == repeat) {
            return Err(ListError::BadRow { fault, row: i + 1 });
        }
    }
    Ok(())
}

// The first fault of the list: its size, else that of the first bad row, counted from 1.
// Rules out: a list of 33 rows; a later bad row named; a number that occurs twice; a row for a
// connection that gives UPDATE of acl2; 21 for a row that could not be stored; an error for a list
// without a fault; a size that is told as a row's fault.
pub fn test_list(rows: &[u8]) -> Result<(), ListError>
    ensures reported { tested_of result ≡ list_tested (was rows) }
    ensures answer { result ≡ result_for (list_tested (was rows)) }
{
    let count = rows.len() / ACE_ROW;
    if (rows.len() % ACE_ROW != 0) | (count > ACES as usize) {
        return Err(ListError::BadSize);
    }
    test_rows(rows, count)
}
