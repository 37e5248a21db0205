// The office text of one access control entry, put into a caller's buffer at a position.
// Every public function is total: a byte past the buffer's end is not written, and the position goes on.
#![tactic(auto)]

ghost use Rattle.std.specs.Prelude.{◌≡◌, ◌++◌, ◌<◌};
ghost use Rattle.rows.specs.Words.{was};
ghost use Rattle.text.specs.Text.{ascii, decimal};
ghost use Rattle.text.specs.Buffer.{Puts};
ghost use Rattle.rules_office.specs.Office.{hex_digit, dashed, dash, hex_byte, uuid_text, uuid_subject};
ghost use Rattle.rules_office.specs.Office.{role_subject, connection_subject, subject_text, resources_text, row_text};

use fields::{ace, be16};
use office_resources::put_resources;
use rules::Subject;
use text::{put, put_byte, put_decimal};

#[tactic(auto, using(crate::proofs::Parts::tested), unfolding(rules_office::specs::Office::hex_digit))]
fn hex_digit(d: u8) -> u8
    requires { d < 16 }
    ensures { result ≡ hex_digit d }
{
    if d < 10 { b'0' + d } else { b'a' + (d - 10) }
}

#[tactic(auto, using(crate::proofs::Parts::tested), unfolding(rules_office::specs::Office::dashed))]
fn is_dashed(i: usize) -> bool
    ensures { result ≡ dashed i }
{
    matches!(i, 4 | 6 | 8 | 10)
}

#[tactic(auto, using(crate::proofs::Parts::tested), unfolding(rules_office::specs::Office::dash, text::specs::Text::ascii))]
fn put_dash(out: &mut [u8], at: usize, i: usize) -> usize
    ensures { Puts out.old at (dash i) out.new result }
{
    if is_dashed(i) {
        put_byte(out, at, b'-')
    } else {
        at
    }
}

// Byte i of a UUID: a dash before some, and two digits.
fn put_hex(out: &mut [u8], at: usize, i: usize, b: u8) -> usize
    ensures { Puts out.old at (hex_byte i b) out.new result }
{
    let p = put_dash(out, at, i);
    let p = put_byte(out, p, hex_digit(b / 16));
    put_byte(out, p, hex_digit(b % 16))
}

fn put_uuid(out: &mut [u8], at: usize, u: &[u8]) -> usize
    ensures { Puts out.old at (uuid_text (was u)) out.new result }
{
    let mut p = at;
    for i in 0..u.len() {
        p = put_hex(out, p, i, u[i]);
    }
    p
}

fn put_uuid_subject(out: &mut [u8], at: usize, row: &[u8]) -> usize
    ensures { Puts out.old at (uuid_subject (was row)) out.new result }
{
    let p = put(out, at, b"{\"uuid\":\"");
    let p = put_uuid(out, p, ace::subject(row));
    put(out, p, b"\"}")
}

// A key and a number.
fn put_number(out: &mut [u8], at: usize, key: &[u8], n: u16) -> usize
    ensures { Puts out.old at (was key ++ decimal n) out.new result }
{
    let p = put(out, at, key);
    put_decimal(out, p, usize::from(n))
}

fn put_role_subject(out: &mut [u8], at: usize, row: &[u8]) -> usize
    ensures { Puts out.old at (role_subject (was row)) out.new result }
{
    let p = put_number(out, at, b"{\"authority\":\"", ace::authority(row));
    let p = put_number(out, p, b"\",\"role\":\"", ace::role(row));
    put(out, p, b"\"}")
}

#[tactic(auto, unfolding(rules_office::specs::Office::connection_subject, text::specs::Text::ascii))]
fn put_connection_subject(out: &mut [u8], at: usize, row: &[u8]) -> usize
    ensures { Puts out.old at (connection_subject (was row)) out.new result }
{
    if ace::connection(row) == 1 {
        put(out, at, b"{\"conntype\":\"auth-crypt\"}")
    } else {
        put(out, at, b"{\"conntype\":\"anon-clear\"}")
    }
}

#[tactic(auto, using(crate::proofs::Parts::tested), unfolding(rules_office::specs::Office::subject_text))]
fn put_subject(out: &mut [u8], at: usize, row: &[u8]) -> usize
    ensures { Puts out.old at (subject_text (was row)) out.new result }
{
    match ace::kind(row) {
        Subject::Uuid => put_uuid_subject(out, at, row),
        Subject::Role => put_role_subject(out, at, row),
        Subject::Connection => put_connection_subject(out, at, row),
        Subject::Other => at,
    }
}

// The text of a row.
// Rules out: a wildcard that is lost; the UUID in upper case; the resources in another order.
pub fn put_row(out: &mut [u8], at: usize, row: &[u8]) -> usize
    ensures { Puts out.old at (row_text (was row)) out.new result }
{
    let p = put_number(out, at, b"{\"aceid\":", be16(row));
    let p = put(out, p, b",\"subject\":");
    let p = put_subject(out, p, row);
    let p = put(out, p, b",\"resources\":[");
    let p = put_resources(out, p, row);
    let p = put_number(out, p, b"],\"permission\":", ace::permission(row));
    put(out, p, b"}")
}
