// The reply to a RETRIEVE of a security resource: its bytes, their number, and check 15.
// The resource's own body, its row owner, and its rows in table order, without asserted roles; of roles the sender's own in force.
// One writer serves both: put into an empty buffer it only measures.
#![tactic(auto)]

ghost use Rattle.std.specs.Prelude.{◌≡◌, map, ◌≤◌, length};
ghost use Rattle.text.specs.Buffer.{Puts};
ghost use Rattle.rows.specs.Rows.{joined};
ghost use Rattle.rows.specs.Promises.{row_at};
ghost use Rattle.rules.specs.declared.Table.TheVariants.{Creds};
ghost use Rattle.rules.specs.Tables.{rows, rows_in};
ghost use Rattle.rules.specs.Checks.{refuse_if};
ghost use Rattle.rules.specs.Promises.Callers.{caller_row};
ghost use Rattle.rules.specs.Roles.{body_of};
ghost use Rattle.rules.specs.Reading.{own_body, row_bytes, contents, reads, reply_to, too_short};
ghost use Rattle.rules.specs.Promises.Words.{was, seen};
ghost use Rattle.rules.specs.Sizes.{cred_row_size};

use asserted_roles::put_roles;
use caller::row_of;
use fields::{capped, cred_rows};
use rows::part;
use rules::{
    ACE_ROW, ACES, CRED_BODY, CRED_ROWS, CREDS, Caller, Check, Head, Header, Resource, TablesView,
    Verb,
};
use text::{put, put_byte};

fn put_owner(out: &mut [u8], at: usize, h: Head) -> usize
    ensures { Puts out.old at (own_body h 0) out.new result }
{
    let p = put_byte(out, at, h.owned % 2 * 128);
    put(out, p, &h.devowner)
}

fn put_own(out: &mut [u8], at: usize, h: Head, resource: u16) -> usize
    ensures { Puts out.old at (own_body h resource) out.new result }
{
    match resource {
        Resource::DOXM => put_owner(out, at, h),
        Resource::PSTAT => put_byte(out, at, h.state % 8 * 32),
        _ => put(out, at, b""),
    }
}

// The body that a row starts with, as bytes of its own: the compiler then copies it in a few moves.
fn body_at(row: &[u8]) -> [u8; CRED_BODY]
    requires { cred_row_size ≤ length row.now }
    ensures { result ≡ body_of (was row) }
{
    let mut body = [0u8; CRED_BODY];
    put(&mut body, 0, part(row, 0, CRED_BODY));
    body
}

// Writes the bodies of the credential rows that count.
fn put_bodies(out: &mut [u8], at: usize, count: u8, creds: &[u8; CRED_ROWS]) -> usize
    ensures { Puts out.old at (joined (map body_of (rows_in Creds count (was creds)))) out.new result }
{
    let mut p = at;
    for row in cred_rows(count, creds).iter() {
        let body = body_at(row);
        p = put(out, p, &body);
    }
    p
}

// The same. Past the buffer's end the bodies are counted: as many bytes of the table are put, and none is written.
fn put_creds(out: &mut [u8], at: usize, count: u8, creds: &[u8; CRED_ROWS]) -> usize
    ensures { Puts out.old at (joined (map body_of (rows_in Creds count (was creds)))) out.new result }
{
    if out.len() <= at {
        let count = capped(count, CREDS);
        return put(out, at, part(creds, 0, count * CRED_BODY));
    }
    put_bodies(out, at, count, creds)
}

fn put_rows(
    out: &mut [u8],
    at: usize,
    clock: u32,
    tables: TablesView<'_>,
    found: Option<usize>,
    resource: u16,
) -> usize
    ensures { Puts out.old at (row_bytes clock (seen tables.entry) (row_at found (rows Creds (seen tables.entry))) resource) out.new result }
{
    let TablesView { head, creds, aces } = tables;
    match resource {
        Resource::CRED => put_creds(out, at, head.ncreds, creds),
        Resource::ACL2 => {
            let n = capped(head.naces, ACES) * ACE_ROW;
            put(out, at, part(aces, 0, n))
        }
        Resource::ROLES => put_roles(out, at, clock, row_of(head.ncreds, creds, found)),
        _ => put(out, at, b""),
    }
}

fn put_contents(
    out: &mut [u8],
    clock: u32,
    tables: TablesView<'_>,
    found: Option<usize>,
    resource: u16,
) -> usize
    ensures { Puts out.old 0 (contents clock (seen tables.entry) (row_at found (rows Creds (seen tables.entry))) resource) out.new result }
{
    let head = tables.head;
    let p = put_own(out, 0, head, resource);
    let at = resource as usize * 16;
    let p = put(out, p, part(&head.rowners, at, 16));
    put_rows(out, p, clock, tables, found, resource)
}

// RETRIEVE of a security resource.
fn is_read(h: Header) -> bool
    ensures { result ≡ reads h }
{
    match h.verb {
        Verb::RETRIEVE => h.resource.configuration,
        _ => false,
    }
}

// Writes the reply to a caller to the start of the buffer, as far as the buffer goes.
// Rules out: rows in another order; a role in the reply of cred; another sender's roles; a byte written for a record that has no reply.
pub fn put_reply(out: &mut [u8], clock: u32, tables: TablesView<'_>, caller: Caller) -> usize
    ensures { Puts out.old 0 (reply_to clock (seen tables.entry) (caller_row (seen tables.entry) caller) caller.header) out.new result }
{
    let header = caller.header;
    if !is_read(header) {
        return put(out, 0, b"");
    }
    put_contents(out, clock, tables, caller.row, header.resource.number)
}

// The length of the reply to a caller: what an empty buffer measures.
// Rules out: a length without the row owner; a length for OBSERVE.
pub fn reply_length(clock: u32, tables: TablesView<'_>, caller: Caller) -> usize
    ensures { result ≡ length (reply_to clock (seen tables.entry) (caller_row (seen tables.entry) caller) caller.header) }
{
    put_reply(&mut [], clock, tables, caller)
}

// Check 15: the reply does not fit the buffer.
// Rules out: 15 where it fits exactly; 15 for a record without a reply.
pub fn check_capacity(capacity: usize, length: usize) -> Check
    ensures { result ≡ refuse_if 15 (too_short capacity length) }
{
    Check::refuse_if(15, capacity < length)
}
