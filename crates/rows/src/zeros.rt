// Whether bytes are 0. Many are looked at together: of `all` the compiler makes a test of each, and speed misses its aims.
ghost use Rattle.std.specs.Prelude.{◌≡◌, ◌^◌, ◌<◌, drop};
ghost use Rattle.rows.specs.Words.{was};
ghost use Rattle.rows.specs.Rows.{all_zero};

// Whether each byte is 0: whether their union is. By index: `iter` brings the type of a reference that may be missing,
// whose layout differs where a pointer has 32 bits.
fn union_zero(bytes: &[u8]) -> bool
    ensures { result ≡ all_zero (was bytes) }
{
    let mut any = 0;
    for i in 0..bytes.len() {
        any |= bytes[i];
    }
    any == 0
}

// Whether each byte is 0, by blocks of N bytes, a number that the compiler knows. The last N bytes, which may be some of
// the same, are a block too: no loop is left for a shorter one.
fn blocks_zero<const N: usize>(bytes: &[u8]) -> bool
    requires { (0 < N) × (N < 2 ^ 63) }
    ensures { result ≡ all_zero (was bytes) }
{
    if bytes.len() < N {
        return union_zero(bytes);
    }
    let last = &bytes[bytes.len() - N..];
    bytes.chunks_exact(N).all(
        |block| -> bool
            ensures { result ≡ all_zero block.now }
        { union_zero(block) },
    ) && union_zero(last)
}

// Whether each byte from `from` on is 0.
// Rules out: only the first byte; the bytes before `from` looked at.
pub fn all_zero(bytes: &[u8], from: usize) -> bool
    ensures { result ≡ all_zero (drop from (was bytes)) }
{
    blocks_zero::<256>(&bytes[from.min(bytes.len())..])
}

// The same as `all_zero`.
// Rules out: only the first byte; the bytes before `from` looked at.
pub fn run_zero(bytes: &[u8], from: usize) -> bool
    ensures { result ≡ all_zero (drop from (was bytes)) }
{
    all_zero(bytes, from)
}

// The same of a few bytes, eight at a time.
// Rules out: the bytes after the first eight not looked at; a run of no bytes refused.
pub fn short_zero(bytes: &[u8]) -> bool
    ensures { result ≡ all_zero (was bytes) }
{
    blocks_zero::<8>(bytes)
}
