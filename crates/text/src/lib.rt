// Writing bytes, fixed texts and decimal numbers into a caller's buffer at a position.
// No function has a `requires`: a byte past the buffer's end is not written, and the position goes on, so an empty buffer measures.
#![tactic(auto)]

ghost use Rattle.std.specs.Prelude.{◌≡◌, [], ◌∷◌, min, length};
ghost use Rattle.rows.specs.Words.{was};
ghost use Rattle.text.specs.Text.{decimal};
ghost use Rattle.text.specs.Buffer.{Puts, Counts};

use rows::copy_bytes;

// One byte. The largest position stays where it is.
// Rules out: a byte written past the end; a position that stops at the end.
pub fn put_byte(out: &mut [u8], at: usize, b: u8) -> usize
    ensures { Puts out.old at (b ∷ []) out.new result }
{
    if at < out.len() {
        out[at] = b;
    }
    at.saturating_add(1)
}

// A text. Past the buffer's end nothing is written; of a text over the end the part that fits is put, and the position goes on.
// A text that fits is copied where it is put, which is fast.
// Rules out: a text cut one byte early; bytes before the position touched.
pub fn put(out: &mut [u8], at: usize, text: &[u8]) -> usize
    ensures { Puts out.old at (was text) out.new result }
{
    if out.len() <= at {
        return text.len().saturating_add(at);
    }
    if text.len() <= out.len() - at {
        let end = at + text.len();
        copy_bytes(&mut out[at..end], text);
        return end;
    }
    put_cut(out, at, text)
}

// The same of a text over the end or past it: rare, so that its code is in a program once.
#[inline(never)]
fn put_cut(out: &mut [u8], at: usize, text: &[u8]) -> usize
    ensures { Puts out.old at (was text) out.new result }
{
    let start = at.min(out.len());
    let fits = text.len().min(out.len() - start);
    copy_bytes(&mut out[start..start + fits], &text[..fits]);
    at.saturating_add(text.len())
}

// A number in decimal: the digits of its tenth, and then its last digit.
// Rules out: zeros before the number; the digits the other way round.
pub fn put_decimal(out: &mut [u8], at: usize, n: usize) -> usize
    ensures { Puts out.old at (decimal n) out.new result }
{
    let digit = b'0' + (n % 10) as u8;
    if n < 10 {
        return put_byte(out, at, digit);
    }
    let p = put_decimal(out, at, n / 10);
    put_byte(out, p, digit)
}

// How many bytes are in the buffer of a text that was put from its start and ends at a position.
// Rules out: a count that goes past the buffer; 0 where the text is cut.
pub fn within(out: &[u8], at: usize) -> usize
    ensures value { result ≡ min at (length (was out)) }
    ensures counts { Counts result (was out) }
{
    out.len().min(at)
}
