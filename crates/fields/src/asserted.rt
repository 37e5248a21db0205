// The fields of an asserted role, as its body and its slot in a credential row have them.
// Authority, role, last second. Each contract rules out the bit next to the field and one bit fewer.
ghost use Rattle.std.specs.Prelude.{◌≡◌};
ghost use Rattle.rows.specs.Words.{was};
ghost use Rattle.rules.specs.Roles.{asserted_authority, asserted_role, asserted_last, no_role, same_role};

use crate::bits::{double_field, field};
use rows::{part, same_bytes};

// Whose role it is.
pub fn authority(slot: &[u8]) -> u16
    ensures { result ≡ asserted_authority (was slot) }
{
    field(slot, 0, 16)
}

pub fn role(slot: &[u8]) -> u16
    ensures { result ≡ asserted_role (was slot) }
{
    field(slot, 16, 16)
}

// The last second in which it is in force.
pub fn last(slot: &[u8]) -> u32
    ensures { result ≡ asserted_last (was slot) }
{
    double_field(slot, 32)
}

// A slot that is not used, or a body that names no role.
pub fn no_role(slot: &[u8]) -> bool
    ensures { result ≡ no_role (was slot) }
{
    role(slot) == 0
}

// The same role of the same authority, whatever the last seconds.
pub fn same_role(new: &[u8], slot: &[u8]) -> bool
    ensures { result ≡ same_role (was new) (was slot) }
{
    same_bytes(part(slot, 0, 4), part(new, 0, 4))
}
