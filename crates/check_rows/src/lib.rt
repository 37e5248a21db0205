// Checks 13, 14 and 22: the rows that the action needs, and the room for a new one, or for a role.
// Each check answers whether it refuses; the first refusal is returned immediately.
// A check answers `Check`, which `let .. else` takes apart: a form that stays (docs/DECISIONS.md, Forms).
#![tactic(auto)]

ghost use Rattle.std.specs.Prelude.{◌≡◌};
ghost use Rattle.rows.specs.Rows.{numbered_as};
ghost use Rattle.rows.specs.Promises.{index_of};
ghost use Rattle.rules.specs.Roles.{roles_in_force};
ghost use Rattle.rules.specs.Tables.{row_of, rows};
ghost use Rattle.rules.specs.Checks.{refuse_if, verdict, missing, full, roles_full};
ghost use Rattle.rules.specs.Promises.Groups.{row_checks};
ghost use Rattle.rules.specs.Promises.Words.{was, before};

use asserted_roles::both_taken;
use row_body::{ace_row, cred_row};
use row_format::capacity_of;
use row_lookup::{count_of, index_by_key, may_be_none, picked};
use rules::{ACE_ROWS, Action, CRED_ROWS, Check, Head, NUMBER_SIZE, Table};

// Where the table holds the number of the row that the body stores.
#[tactic(auto, using(rows::proofs::Laws::numbered_key))]
fn numbered_index<'a>(
    h: Head,
    creds: &'a [u8; CRED_ROWS],
    aces: &'a [u8; ACE_ROWS],
    table: Table,
    b: &[u8],
) -> Option<usize>
    ensures { result ≡ index_of (numbered_as (row_of table (was b))) (rows table (before h creds aces)) }
{
    let find = |row: &[u8]| index_by_key(h, creds, aces, table, 0, &row[..NUMBER_SIZE]);
    match table {
        Table::Creds => find(&cred_row(b)),
        Table::Aces => find(&ace_row(b)),
    }
}

// Check 13: the rows to delete are not there; an empty table may be emptied.
#[tactic(auto, using(rules::proofs::Others::no_remove, rows::proofs::Laws::some_index), unfolding(rules::specs::Checks::refuse_if))]
fn check_missing<'a>(
    h: Head,
    creds: &'a [u8; CRED_ROWS],
    aces: &'a [u8; ACE_ROWS],
    a: Action,
    b: &[u8],
) -> Check
    ensures { result ≡ refuse_if 13 (missing (before h creds aces) (was b) a) }
{
    let Action::Remove(table, key) = a else {
        return Check::Pass;
    };
    let missing = !may_be_none(key) && picked(h, creds, aces, table, key, b).is_none();
    Check::refuse_if(13, missing)
}

#[tactic(auto, using(rules::proofs::Others::no_store, rows::proofs::Laws::some_index), unfolding(rules::specs::Checks::refuse_if))]
fn check_full<'a>(
    h: Head,
    creds: &'a [u8; CRED_ROWS],
    aces: &'a [u8; ACE_ROWS],
    a: Action,
    b: &[u8],
) -> Check
    ensures { result ≡ refuse_if 14 (full (before h creds aces) (was b) a) }
{
    let Action::Store(table) = a else {
        return Check::Pass;
    };
    let no_room = capacity_of(table) <= count_of(h, table);
    let full = no_room && numbered_index(h, creds, aces, table, b).is_none();
    Check::refuse_if(14, full)
}

// Check 22: both slots of the sender's own row have other roles in force.
#[tactic(auto, using(rules::proofs::Others::no_assert), unfolding(rules::specs::Checks::refuse_if))]
fn check_roles(clock: u32, cred: &[u8], a: Action, b: &[u8]) -> Check
    ensures { result ≡ refuse_if 22 (roles_full (roles_in_force clock (was cred)) (was b) a) }
{
    let Action::Assert(_) = a else {
        return Check::Pass;
    };
    Check::refuse_if(22, both_taken(clock, b, cred))
}

// The first of the checks 13, 14 and 22 that applies to the action with this body, where `cred` is the sender's own row or no bytes.
// Rules out: a full table that refuses a row whose number it holds; a deletion of rows that are not there; an expired role counted for 22.
#[tactic(auto, unfolding(rules::specs::Checks::verdict, rules::specs::Checks::refuse_if))]
pub fn check_rows<'a>(
    clock: u32,
    h: Head,
    creds: &'a [u8; CRED_ROWS],
    aces: &'a [u8; ACE_ROWS],
    cred: &[u8],
    a: Action,
    b: &[u8],
) -> Check
    ensures { result ≡ verdict (row_checks clock (before h creds aces) (was cred) (was b) a) }
{
    let c = check_missing(h, creds, aces, a, b);
    let Check::Pass = c else {
        return c;
    };
    let c = check_full(h, creds, aces, a, b);
    let Check::Pass = c else {
        return c;
    };
    check_roles(clock, cred, a, b)
}
