// An access list of the older terminals as access rows, in the caller's buffer.
// The whole file is tested and the rows are counted before a byte is written.
#![tactic(auto)]

ghost use Rattle.std.specs.Prelude.{◌≡◌, ◌≤◌, length};
ghost use Rattle.std.specs.Result.{result_unwrap_or};
ghost use Rattle.rows.specs.Words.{was};
ghost use Rattle.text.specs.Buffer.{Puts};
ghost use Rattle.rows.specs.Rows.{some, joined};
ghost use Rattle.rules.specs.Reading.{filled};
ghost use Rattle.rules.specs.Checks.{number_of};
ghost use Rattle.rules_legacy.specs.OldList.{old_rows, bad_row, bad_file};
ghost use Rattle.rules_legacy.specs.Conversion.{rows_made, conversion_verdict, conversion_reply};
ghost use Rattle.list_convert.specs.Answers.{refusal, answer_of};

use list_row::{OLD_ROW, is_bad, made_count, put_made};
use rules::{ACE_ROW, ACES};

// Why no rows are made of a file.
#[derive(Clone, Copy, Debug, PartialEq, Eq)]
pub enum ConvertError {
    // its length, or a row of it, is bad
    BadFile,
    // more rows than an access list holds
    TooManyRows,
    // the buffer holds fewer bytes than the rows
    TooShort,
}

// The answer's number.
impl From<ConvertError> for u8 {
    ghost from_gives = { λ error number. number ≡ refusal error };

    fn from(error: ConvertError) -> u8 {
        match error {
            ConvertError::BadFile => 23,
            ConvertError::TooManyRows => 24,
            ConvertError::TooShort => 25,
        }
    }
}

// Whether some row is bad.
fn has_bad_row(file: &[u8]) -> bool
    ensures { result ≡ some bad_row (old_rows (was file)) }
{
    file.chunks_exact(OLD_ROW).any(is_bad)
}

fn is_bad_file(file: &[u8]) -> bool
    ensures { result ≡ bad_file (was file) }
{
    (file.len() % OLD_ROW != 0) | has_bad_row(file)
}

// How many rows are made.
fn count_made(file: &[u8]) -> usize
    ensures { result ≡ length (rows_made (was file)) }
{
    file.chunks_exact(OLD_ROW)
        .map(|row| usize::from(made_count(row)))
        .sum()
}

// The rows made, in a buffer that holds them.
fn put_all(out: &mut [u8], file: &[u8]) -> usize
    requires { (length (rows_made file.now) ≤ 32) × (length (joined (rows_made file.now)) ≤ length out.old) }
    ensures { Puts out.old 0 (joined (rows_made (was file))) out.new result }
{
    let mut p = 0;
    let mut number = 1;
    for row in file.chunks_exact(OLD_ROW) {
        p = put_made(out, p, number, row);
        number += made_count(row);
    }
    p
}

// A file of old rows as access rows: the length of the rows, and the caller's buffer afterwards.
// Rules out: a byte written on a refusal; 24 for 32 rows, or before 23; 25 where the rows just fit; anon-clear before auth-crypt.
pub fn convert(file: &[u8], rows: &mut [u8]) -> Result<usize, ConvertError>
    ensures answer { answer_of result ≡ number_of (conversion_verdict (was file) (length rows.old)) }
    ensures length { result_unwrap_or result 0 ≡ length (conversion_reply (was file) (length rows.old)) }
    ensures buffer { rows.new ≡ filled rows.old (conversion_reply (was file) (length rows.old)) }
{
    if is_bad_file(file) {
        return Err(ConvertError::BadFile);
    }
    let made = count_made(file);
    if made > ACES as usize {
        return Err(ConvertError::TooManyRows);
    }
    if rows.len() < made * ACE_ROW {
        return Err(ConvertError::TooShort);
    }
    Ok(put_all(rows, file))
}
