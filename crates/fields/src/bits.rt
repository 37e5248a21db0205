// The one reader of packed bits, most significant bit first.
// Three bytes hold any field of up to 16 bits, so a field is a quotient and a remainder of their number.
ghost use Rattle.std.specs.Prelude.{◌≡◌, ◌*◌, ◌^◌, ◌≤◌, ◌<◌, get_or};
ghost use Rattle.rows.specs.Words.{was};
ghost use Rattle.rules.specs.Bits.{bit, bits};

// The byte at an index, or 0.
// Rules out: the byte after it; a fault past the end.
pub fn byte_at(s: &[u8], i: usize) -> u8
    ensures { result ≡ get_or (was s) i 0 }
{
    if i < s.len() { s[i] } else { 0 }
}

// The number of the three bytes at an index.
fn three_at(s: &[u8], i: usize) -> u32
    requires { i < 4096 }
    ensures { result ≡ bits (was s) (8 * i) 24 }
{
    let a = byte_at(s, i);
    let b = byte_at(s, i + 1);
    let c = byte_at(s, i + 2);
    a as u32 * 65536 + b as u32 * 256 + c as u32
}

// 2 to the power of a width.
fn power(width: usize) -> u32
    requires { width ≤ 16 }
    ensures { result ≡ 2 ^ width }
{
    65536 >> (16 - width)
}

// The field of `width` bits that starts at bit `start`.
pub fn field(s: &[u8], start: usize, width: usize) -> u16
    requires { (start < 4096) × (width ≤ 16) }
    ensures { result ≡ bits (was s) start width }
{
    let three = three_at(s, start / 8);
    let down = 24 - (start % 8 + width);
    let size = power(width);
    ((three >> down) % size) as u16
}

// The field of 32 bits that starts at bit `start`: two of 16.
pub fn double_field(s: &[u8], start: usize) -> u32
    requires { start < 4080 }
    ensures { result ≡ bits (was s) start 32 }
{
    let high = field(s, start, 16);
    let low = field(s, start + 16, 16);
    high as u32 * 65536 + low as u32
}

// Bit i, counted from the most significant bit of the first byte.
pub fn bit_at(s: &[u8], i: usize) -> u8
    ensures { result ≡ bit (was s) i }
{
    let down = 7 - i % 8;
    (byte_at(s, i / 8) >> down) % 2
}
