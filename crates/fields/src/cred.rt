// The fields of a credential row.
// Number, subject UUID, role, its authority, type, and after these, its body, a table of two places for
// asserted roles. Each contract rules out the bit next to the field and one bit fewer.
ghost use Rattle.std.specs.Prelude.{◌≡◌, [], ◌<◌, get_or};
ghost use Rattle.rows.specs.Words.{was};
ghost use Rattle.rules.specs.Bodies.{cred_subject, cred_role, cred_authority, cred_type};
ghost use Rattle.rules.specs.Roles.{body_of, roles_of};
ghost use Rattle.rules.specs.Bits.{bits};
ghost use Rattle.rules.specs.Sizes.{role_slots};

use crate::bits::field;
use rows::part;
use rules::{CRED_BODY, ROLE_SLOT};

pub fn subject(row: &[u8]) -> &[u8]
    ensures { result.now ≡ cred_subject (was row) }
{
    part(row, 2, 16)
}

pub fn role(row: &[u8]) -> u16
    ensures { result ≡ cred_role (was row) }
{
    field(row, 144, 16)
}

// Whose role it is.
pub fn authority(row: &[u8]) -> u16
    ensures { result ≡ cred_authority (was row) }
{
    field(row, 160, 16)
}

// Decides nothing; at most one bit of the six is set.
pub fn type_bits(row: &[u8]) -> u16
    ensures { result ≡ cred_type (was row) }
{
    field(row, 176, 6)
}

pub fn zeros(row: &[u8]) -> u16
    ensures { result ≡ bits (was row) 182 2 }
{
    field(row, 182, 2)
}

// What a body stored.
pub fn body(row: &[u8]) -> &[u8]
    ensures { result.now ≡ body_of (was row) }
{
    part(row, 0, CRED_BODY)
}

// A slot for an asserted role. The role that came first is in slot 0.
pub fn role_slot(row: &[u8], i: usize) -> &[u8]
    requires { i < role_slots }
    ensures { result.now ≡ get_or (roles_of (was row)) i [] }
{
    part(row, CRED_BODY + i * ROLE_SLOT, ROLE_SLOT)
}
