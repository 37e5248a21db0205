// Whether the senders of a list are isolated from all others: the premise of demand 3 as a question to the tables.
// The first reason why not is returned immediately. Total: any bytes are tables, and any bytes a list.
#![tactic(auto)]

ghost use Rattle.std.specs.Prelude.{◌≡◌};
ghost use Rattle.rows.specs.Listed.{listed};
ghost use Rattle.rows.specs.Promises.{index_of};
ghost use Rattle.rules.specs.Directory.{some_security};
ghost use Rattle.rules.specs.Permission.{is_owner};
ghost use Rattle.rules.specs.Isolation.{may_fit};
ghost use Rattle.rules.specs.Promises.Words.{was, seen};
ghost use Rattle.rules_isolation.specs.declared.Isolation.TheVariants.{Isolated};
ghost use Rattle.rules_isolation.specs.Question.{entries, sender_of, lets_alter, entry_answer, entries_answer, isolation_of};

use caller::{connection_of, index_for, row_of};
use check_tables::tables_sound;
use fields::{ace, ace_rows, be16, cred};
use permission::is_owner;
use permission_row::row_alters;
use rows::{Rows, same_bytes};
use rules::{Head, Resource, Sender, Subject, TablesView};
use rules_isolation::Isolation;

// ---- an access row

// Whether the row may fit the sender: it may assert any role one day.
#[tactic(auto, unfolding(rules::specs::Isolation::may_fit, rules::specs::Permission::subject_is))]
fn may_fit(cred: &[u8], connection: u16, ace: &[u8]) -> bool
    ensures { result ≡ may_fit (was cred) connection (was ace) }
{
    match ace::kind(ace) {
        Subject::Uuid => !cred.is_empty() & same_bytes(ace::subject(ace), cred::subject(cred)),
        Subject::Role => connection == 1,
        Subject::Connection => ace::connection(ace) == connection,
        Subject::Other => false,
    }
}

fn lets_alter(cred: &[u8], connection: u16, ace: &[u8]) -> bool
    ensures { result ≡ lets_alter (was cred) connection (was ace) }
{
    may_fit(cred, connection, ace) & row_alters(ace)
}

// The index of the first row that may let the sender alter a security resource.
fn altering_row(rows: Rows<'_>, cred: &[u8], connection: u16) -> Option<usize>
    ensures { result ≡ index_of (lets_alter (was cred) connection) (listed rows.entry) }
{
    rows.iter()
        .position(|row| lets_alter(cred, connection, row))
}

// ---- an entry

// The sender that an entry names.
#[tactic(auto, unfolding(rules_isolation::specs::Question::sender_of, rules_isolation::specs::Question::anonymous))]
fn sender_of(entry: &[u8]) -> Sender
    ensures { result ≡ sender_of (was entry) }
{
    match be16(entry) {
        0 => Sender::Unauthenticated,
        number => Sender::Partner(number),
    }
}

// The security resources.
const SECURITY: [u16; 5] = [
    Resource::DOXM,
    Resource::PSTAT,
    Resource::CRED,
    Resource::ACL2,
    Resource::ROLES,
];

// Whether a credential row names the device owner or any row owner.
fn names_owner(h: Head, cred: &[u8]) -> bool
    ensures { result ≡ some_security (is_owner h (was cred)) }
{
    (0..SECURITY.len()).any(|i| is_owner(h, cred, SECURITY[i]))
}

// What is answered of only the sender at entry i.
fn entry_answer(tables: TablesView<'_>, who: Sender, i: usize) -> Isolation
    ensures { result ≡ entry_answer (seen tables.entry) i who Isolated }
{
    let TablesView { head, creds, aces } = tables;
    let cred = row_of(head.ncreds, creds, index_for(head.ncreds, creds, who));
    if names_owner(head, cred) {
        return Isolation::NamesOwner(i);
    }
    match altering_row(ace_rows(head.naces, aces), cred, connection_of(who)) {
        None => Isolation::Isolated,
        Some(row) => Isolation::MayAlter(i, row + 1),
    }
}

// ---- the list

fn entries_answer(tables: TablesView<'_>, list: &[u8]) -> Isolation
    ensures { result ≡ entries_answer (seen tables.entry) 1 (entries (was list)) }
{
    for (i, entry) in list.chunks_exact(2).enumerate() {
        let answer = entry_answer(tables, sender_of(entry), i + 1);
        let Isolation::Isolated = answer else {
            return answer;
        };
    }
    Isolation::Isolated
}

// Whether the senders of a list are isolated. An entry is two bytes, a credential number; 0 is the unauthenticated.
// Rules out: an owner of one resource passed over; the unauthenticated taken for a partner; an access row of a past season,
// or for a role that nobody has today, not counted; a later entry or row named; a list cut short.
#[tactic(auto, unfolding(rules_isolation::specs::Question::isolation_of, rules_isolation::specs::Question::odd_length, rules_isolation::specs::Question::lacks_owner))]
pub fn isolation_of(tables: TablesView<'_>, list: &[u8]) -> Isolation
    ensures { result ≡ isolation_of (seen tables.entry) (was list) }
{
    if list.len() % 2 == 1 {
        return Isolation::OddLength;
    }
    if !tables_sound(tables) {
        return Isolation::Unsound;
    }
    if !list.is_empty() && tables.head.owned == 0 {
        return Isolation::NoOwner;
    }
    entries_answer(tables, list)
}
