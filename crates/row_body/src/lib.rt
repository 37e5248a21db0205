// The row that a body stores.
// A body may leave out what the row has: that part then has its default.
#![tactic(auto)]

ghost use Rattle.std.specs.Prelude.{◌≡◌};
ghost use Rattle.rows.specs.Words.{was};
ghost use Rattle.rules.specs.declared.Table.TheVariants.{Creds, Aces};
ghost use Rattle.rules.specs.Tables.{row_of};

use rows::copy_bytes;
use rules::{ACE_ROW, ACE_SHORT, CRED_BODY, CRED_ROW, CRED_SHORT};

// The credential row that a body stores, with no role asserted; zeros for a body of another length.
// Rules out: an authority read from the type; the type left where a body of 21 bytes has it; a role kept from the row before.
#[tactic(auto, unfolding(rules::specs::Bodies::cred_row_of))]
pub fn cred_row(b: &[u8]) -> [u8; CRED_ROW]
    ensures { result ≡ row_of Creds (was b) }
{
    let mut row = [0u8; CRED_ROW];
    match b.len() {
        CRED_BODY => copy_bytes(&mut row[..CRED_BODY], b),
        CRED_SHORT => {
            copy_bytes(&mut row[..20], &b[..20]);
            row[22] = b[20];
        }
        _ => {}
    }
    row
}

// The latest second, 4,294,967,295.
const LATEST: [u8; 4] = [255; 4];

// The access row that a body stores; zeros for a body of another length.
// Rules out: a body of 28 bytes that holds for no second but 0; the period before the subject.
#[tactic(auto, unfolding(rules::specs::Bodies::ace_row_of))]
pub fn ace_row(b: &[u8]) -> [u8; ACE_ROW]
    ensures { result ≡ row_of Aces (was b) }
{
    let mut row = [0u8; ACE_ROW];
    match b.len() {
        ACE_ROW => copy_bytes(&mut row, b),
        ACE_SHORT => {
            copy_bytes(&mut row[..ACE_SHORT], b);
            copy_bytes(&mut row[ACE_ROW - 4..], &LATEST);
        }
        _ => {}
    }
    row
}
