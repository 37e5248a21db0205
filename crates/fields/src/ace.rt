// The fields of an access row, an access control entry.
// Number, subject kind, permission, wildcards, set of resources, subject, period. Each contract rules out the bit next to the field and one bit fewer.
ghost use Rattle.std.specs.Prelude.{◌≡◌};
ghost use Rattle.rows.specs.Words.{was};
ghost use Rattle.rules.specs.Bits.{bits};
ghost use Rattle.rules.specs.Directory.{some_security};
ghost use Rattle.rules.specs.Promises.Kinds.{kind_number};
ghost use Rattle.rules.specs.Bodies.{ace_kind, ace_permission, ace_plus, ace_minus, ace_star, in_set, set_known};
ghost use Rattle.rules.specs.Bodies.{ace_subject, ace_authority, ace_role, ace_connection, ace_first, ace_last};

use crate::bits::{bit_at, byte_at, double_field, field};
use rows::part;
use rules::Subject;

// What the subject names: 0 a UUID, 1 a role, 2 a connection.
pub fn kind(row: &[u8]) -> Subject
    ensures { kind_number result ≡ ace_kind (was row) }
{
    let number = field(row, 16, 2);
    match number {
        0 => Subject::Uuid,
        1 => Subject::Role,
        2 => Subject::Connection,
        _ => Subject::Other,
    }
}

pub fn permission(row: &[u8]) -> u16
    ensures { result ≡ ace_permission (was row) }
{
    field(row, 18, 5)
}

// The wildcard "+".
pub fn plus(row: &[u8]) -> bool
    ensures { result ≡ ace_plus (was row) }
{
    field(row, 23, 1) == 1
}

// The wildcard "-".
pub fn minus(row: &[u8]) -> bool
    ensures { result ≡ ace_minus (was row) }
{
    field(row, 24, 1) == 1
}

// The wildcard "*".
pub fn star(row: &[u8]) -> bool
    ensures { result ≡ ace_star (was row) }
{
    field(row, 25, 1) == 1
}

pub fn zeros(row: &[u8]) -> u16
    ensures { result ≡ bits (was row) 26 6 }
{
    field(row, 26, 6)
}

// Whether a resource is in the set.
pub fn in_set(row: &[u8], resource: u16) -> bool
    ensures { result ≡ in_set (was row) resource }
{
    bit_at(row, 32 + resource as usize) == 1
}

pub fn subject(row: &[u8]) -> &[u8]
    ensures { result.now ≡ ace_subject (was row) }
{
    part(row, 12, 16)
}

// Whose role it is.
pub fn authority(row: &[u8]) -> u16
    ensures { result ≡ ace_authority (was row) }
{
    field(row, 192, 16)
}

pub fn role(row: &[u8]) -> u16
    ensures { result ≡ ace_role (was row) }
{
    field(row, 208, 16)
}

pub fn connection(row: &[u8]) -> u16
    ensures { result ≡ ace_connection (was row) }
{
    field(row, 223, 1)
}

// The first second of the row's period.
pub fn first(row: &[u8]) -> u32
    ensures { result ≡ ace_first (was row) }
{
    double_field(row, 224)
}

// The last second of the row's period.
pub fn last(row: &[u8]) -> u32
    ensures { result ≡ ace_last (was row) }
{
    double_field(row, 256)
}

// The seven bits before the connection.
pub fn connection_zeros(row: &[u8]) -> u16
    ensures { result ≡ bits (was row) 216 7 }
{
    field(row, 216, 7)
}

// Whether a security resource is in the set: they are its first five numbers.
pub fn on_security(row: &[u8]) -> bool
    ensures { result ≡ some_security (in_set (was row)) }
{
    field(row, 32, 5) != 0
}

// Whether each number in the set of resources is known: the numbers between and after the known ones are not in it.
// Byte by byte, as one union: the compiler then compares all eight together.
pub fn set_known(row: &[u8]) -> bool
    ensures { result ≡ set_known (was row) 64 }
{
    // 5 to 7, 15, and 17 to 63
    let low = (byte_at(row, 4) % 8) | (byte_at(row, 5) % 2);
    let next = (byte_at(row, 6) % 128) | byte_at(row, 7);
    let third = byte_at(row, 8) | byte_at(row, 9);
    let high = byte_at(row, 10) | byte_at(row, 11);
    (low | next | third | high) == 0
}
