// The fields of the bodies of doxm and pstat.
// Owned and device owner; target state. Each contract rules out the bit next to the field and one bit fewer.
ghost use Rattle.std.specs.Prelude.{◌≡◌};
ghost use Rattle.rows.specs.Words.{was};
ghost use Rattle.rules.specs.Bits.{bits};
ghost use Rattle.rules.specs.Bodies.{new_owned, new_owner, target};

use crate::bits::field;
use crate::skip;

pub fn new_owned(b: &[u8]) -> u16
    ensures { result ≡ new_owned (was b) }
{
    field(b, 0, 1)
}

pub fn owner_zeros(b: &[u8]) -> u16
    ensures { result ≡ bits (was b) 1 7 }
{
    field(b, 1, 7)
}

// All that follows the first byte.
pub fn new_owner(b: &[u8]) -> &[u8]
    ensures { result.now ≡ new_owner (was b) }
{
    skip(b, 1)
}

pub fn target(b: &[u8]) -> u16
    ensures { result ≡ target (was b) }
{
    field(b, 0, 3)
}

pub fn target_zeros(b: &[u8]) -> u16
    ensures { result ≡ bits (was b) 3 5 }
{
    field(b, 3, 5)
}
