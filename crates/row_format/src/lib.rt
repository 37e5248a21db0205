// The values that a body may have, and what it could store as a row.
// A test for each field, in the order of the layout; a body of another length is no row.
#![tactic(auto)]

ghost use Rattle.std.specs.Prelude.{◌≡◌, ◌*◌, ◌≤◌, length};
ghost use Rattle.rows.specs.Rows.{rows_of, every};
ghost use Rattle.rules.specs.Bodies.{is_nil, owner_body, state_body, cred_storable, subject_storable, ace_storable};
ghost use Rattle.rules.specs.Roles.{roles_sound, cred_sound};
ghost use Rattle.rules.specs.Sizes.{cred_row_size, ace_row_size};
ghost use Rattle.rules.specs.Promises.Words.{was};
ghost use Rattle.rules.specs.Tables.{stride, capacity};

use fields::asserted::{authority, no_role, same_role};
use fields::{ace, be16, body, cred, skip};
use rows::{Rows, part, short_zero};
use rules::{ACE_ROW, ACES, CRED_BODY, CRED_ROW, CREDS, ROLE_SLOT, Subject, Table, UUID_SIZE};

// Bytes of a row.
// Rules out: one length for both tables; a credential row without its role slots.
pub fn stride_of(table: Table) -> usize
    ensures { result ≡ stride table }
{
    match table {
        Table::Creds => CRED_ROW,
        Table::Aces => ACE_ROW,
    }
}

// Rows at most.
// Rules out: one row fewer; one capacity for both tables.
pub fn capacity_of(table: Table) -> usize
    ensures { result ≡ capacity table }
{
    match table {
        Table::Creds => usize::from(CREDS),
        Table::Aces => usize::from(ACES),
    }
}

// The UUID of nobody: sixteen zero bytes.
// Rules out: fifteen zero bytes taken as nil; no bytes taken as nil.
#[tactic(auto, using(crate::proofs::Laws::nil_is))]
pub fn is_nil(uuid: &[u8]) -> bool
    ensures { result ≡ is_nil (was uuid) }
{
    uuid.len() == UUID_SIZE && short_zero(uuid)
}

// doxm: owned is 1 exactly when the device owner is not nil.
// Rules out: an owner with owned 0; nil with owned 1.
#[tactic(auto, unfolding(rules::specs::Bodies::owner_body))]
pub fn owner_body(b: &[u8]) -> bool
    ensures { result ≡ owner_body (was b) }
{
    let owned = u16::from(!is_nil(body::new_owner(b)));
    body::owner_zeros(b) == 0 && body::new_owned(b) == owned
}

// pstat: a target state from 0 to 4.
// Rules out: state 5 as a target; a set bit after the target.
#[tactic(auto, unfolding(rules::specs::Bodies::state_body))]
pub fn state_body(b: &[u8]) -> bool
    ensures { result ≡ state_body (was b) }
{
    body::target(b) <= 4 && body::target_zeros(b) == 0
}

// What a body of 23 bytes may say of a credential.
// Rules out: number 0; two bits of the type; an authority without a role.
#[tactic(auto, unfolding(rules::specs::Bodies::cred_storable))]
fn cred_storable(row: &[u8]) -> bool
    ensures { result ≡ cred_storable (was row) }
{
    row.len() == CRED_BODY
        && be16(row) != 0
        && !is_nil(cred::subject(row))
        && cred::zeros(row) == 0
        && cred::type_bits(row).count_ones() <= 1
        && (cred::role(row) != 0 || cred::authority(row) == 0)
}

// The slots have the roles that are there, different ones, and after them zeros.
#[tactic(auto, using(rules::proofs::RoleSlots::slots_sound, crate::proofs::Laws::no_first))]
fn roles_sound(row: &[u8]) -> bool
    requires { length row.now ≡ cred_row_size }
    ensures { result ≡ roles_sound (was row) }
{
    let first = cred::role_slot(row, 0);
    if no_role(first) {
        // its role is 0: what is left is the authority, and all after the role
        return short_zero(skip(row, CRED_BODY + 4)) && authority(first) == 0;
    }
    let second = cred::role_slot(row, 1);
    if no_role(second) {
        return short_zero(skip(row, CRED_BODY + ROLE_SLOT));
    }
    !same_role(first, second)
}

// A credential row that the table may hold: where nothing is asserted, as in most rows, the body is all there is to test.
#[tactic(auto, unfolding(rules::specs::Roles::cred_sound))]
fn cred_row_sound(row: &[u8]) -> bool
    ensures { result ≡ cred_sound (was row) }
{
    row.len() == CRED_ROW && cred_storable(cred::body(row)) && roles_sound(row)
}

// Whether each of `count` credential rows is a row that the table may hold. The test is in the code once, in this walk.
pub fn all_creds_sound(rows: &[u8], count: usize) -> bool
    requires { count * cred_row_size ≤ length rows.now }
    ensures { result ≡ every cred_sound (rows_of cred_row_size count (was rows)) }
{
    Rows::new(rows, CRED_ROW, count)
        .iter()
        .all(|row| cred_row_sound(row))
}

// One row.
#[tactic(auto, using(crate::proofs::Laws::lone), unfolding(rules::specs::Roles::cred_sound))]
pub fn cred_sound(row: &[u8]) -> bool
    ensures { result ≡ cred_sound (was row) }
{
    row.len() == CRED_ROW && all_creds_sound(row, 1)
}

// The subject is one of its kind. Its first eight bytes settle it in most rows.
#[tactic(auto, using(crate::proofs::Laws::by_parts))]
fn subject_storable(row: &[u8]) -> bool
    requires { length row.now ≡ ace_row_size }
    ensures { result ≡ subject_storable (was row) }
{
    let subject = ace::subject(row);
    let kind = ace::kind(row);
    if !short_zero(part(subject, 0, 8)) {
        return kind == Subject::Uuid;
    }
    match kind {
        Subject::Uuid => !short_zero(part(subject, 8, 8)),
        Subject::Role => short_zero(part(subject, 8, 4)) && ace::role(row) != 0,
        Subject::Connection => short_zero(part(subject, 8, 7)) && ace::connection_zeros(row) == 0,
        Subject::Other => false,
    }
}

#[tactic(auto, unfolding(rules::specs::Bodies::ace_storable))]
fn ace_row_storable(row: &[u8]) -> bool
    ensures { result ≡ ace_storable (was row) }
{
    row.len() == ACE_ROW
        && be16(row) != 0
        && ace::zeros(row) == 0
        && ace::set_known(row)
        && ace::first(row) <= ace::last(row)
        && subject_storable(row)
}

// Whether each of `count` access rows is a row that a body could store. The test is in the code once, in this walk.
// A function over both tables that takes the test would leave a line as long as this one for each.
pub fn all_aces_storable(rows: &[u8], count: usize) -> bool
    requires { count * ace_row_size ≤ length rows.now }
    ensures { result ≡ every ace_storable (rows_of ace_row_size count (was rows)) }
{
    Rows::new(rows, ACE_ROW, count)
        .iter()
        .all(|row| ace_row_storable(row))
}

// An access row that a body could store.
#[tactic(auto, using(crate::proofs::Laws::lone), unfolding(rules::specs::Bodies::ace_storable))]
pub fn ace_storable(row: &[u8]) -> bool
    ensures { result ≡ ace_storable (was row) }
{
    row.len() == ACE_ROW && all_aces_storable(row, 1)
}
