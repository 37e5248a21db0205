// The tables' access list as office text, in the caller's buffer.
// The same walk measures, on an empty buffer, and writes: too short is decided before a byte is written.
// A buffer that fits every text needs no measuring.
#![tactic(auto)]

ghost use Rattle.std.specs.Prelude.{◌≡◌, cond, [], ◌++◌, ◌*◌, ◌≤◌, ltb, length};
ghost use Rattle.std.specs.Result.{result_unwrap_or};
ghost use Rattle.text.specs.Buffer.{Puts};
ghost use Rattle.rows.specs.Listed.{listed};
ghost use Rattle.rules.specs.declared.Table.TheVariants.{Aces};
ghost use Rattle.rules.specs.Tables.{rows_in};
ghost use Rattle.rules.specs.Promises.Words.{was, seen};
ghost use Rattle.rules.specs.Reading.{filled};
ghost use Rattle.rules.specs.Checks.{number_of};
ghost use Rattle.rules_terminal.specs.Terminal.{terminal};
ghost use Rattle.rules_office.specs.Office.{comma, row_text, rows_text, seasonal, rows_written, list_text, office_verdict, office_reply};
ghost use Rattle.rules.specs.Sizes.{ace_row_size};
ghost use Rattle.office_list.specs.Answers.{refusal, answer_of};

use check_waiting::terminal_sound;
use fields::{ace, ace_rows};
use office_entry::put_row;
use office_resources::put_comma;
use rows::Rows;
use rules::{ACE_ROWS, TablesView};
use rules_terminal::QUEUE;
use text::put;

// Bytes that fit every text (`text_short`, rules_office/proofs/Bounds.antt).
const TEXT_MAX: usize = 13069;

// Why no text is written.
#[derive(Clone, Copy, Debug, PartialEq, Eq)]
pub enum TextError {
    // the tables or the queue are not sound
    NotSound,
    // the buffer holds fewer bytes than the text
    TooShort,
}

// The answer's number.
impl From<TextError> for u8 {
    ghost from_gives = { λ error number. number ≡ refusal error };

    fn from(error: TextError) -> u8 {
        match error {
            TextError::NotSound => 17,
            TextError::TooShort => 18,
        }
    }
}

// Whether a row holds for a shorter period than every second.
fn is_seasonal(row: &[u8]) -> bool
    ensures { result ≡ seasonal (was row) }
{
    !((ace::first(row) == 0) & (ace::last(row) == u32::MAX))
}

// A row after its comma, or nothing where the row is left out.
fn put_entry(out: &mut [u8], at: usize, first: bool, row: &[u8]) -> usize
    ensures { Puts out.old at (cond (seasonal (was row)) [] (comma first ++ row_text (was row))) out.new result }
{
    if is_seasonal(row) {
        return put(out, at, b"");
    }
    let p = put_comma(out, at, first);
    put_row(out, p, row)
}

fn put_rows(out: &mut [u8], at: usize, rows: Rows<'_>) -> usize
    ensures { Puts out.old at (rows_text (rows_written (listed rows.entry))) out.new result }
{
    let mut p = at;
    let mut first = true;
    for row in rows.iter() {
        p = put_entry(out, p, first, row);
        first = is_seasonal(row) & first;
    }
    p
}

fn put_list(out: &mut [u8], naces: u8, aces: &[u8; ACE_ROWS]) -> usize
    ensures { Puts out.old 0 (list_text (rows_written (rows_in Aces naces (was aces)))) out.new result }
{
    let p = put(out, 0, b"{\"aclist2\":[");
    let p = put_rows(out, p, ace_rows(naces, aces));
    put(out, p, b"]}")
}

// Whether a buffer of this capacity is shorter than the text.
// Rules out: a buffer that fits exactly; a text that is longer than every text.
fn is_too_short(capacity: usize, naces: u8, aces: &[u8; ACE_ROWS]) -> bool
    ensures { result ≡ ltb capacity (length (list_text (rows_written (rows_in Aces naces (was aces))))) }
{
    if TEXT_MAX <= capacity {
        return false;
    }
    capacity < put_list(&mut [], naces, aces)
}

// The tables' access list as office text: the length of the text, and the caller's buffer afterwards.
// Rules out: a byte written on 18; 18 where the text fits exactly; the text of tables that are
// not sound, be it only in the queue; a row of a shorter period in the text.
pub fn access_list(
    tables: TablesView<'_>,
    queue: &[u8; QUEUE],
    out: &mut [u8],
) -> Result<usize, TextError>
    ensures answer { answer_of result ≡ number_of (office_verdict (terminal (seen tables.entry) (was queue)) (length out.old)) }
    ensures length { result_unwrap_or result 0 ≡ length (office_reply (terminal (seen tables.entry) (was queue)) (length out.old)) }
    ensures buffer { out.new ≡ filled out.old (office_reply (terminal (seen tables.entry) (was queue)) (length out.old)) }
{
    let TablesView { head, aces, .. } = tables;
    if !terminal_sound(tables, queue) {
        return Err(TextError::NotSound);
    }
    if is_too_short(out.len(), head.naces, aces) {
        return Err(TextError::TooShort);
    }
    Ok(put_list(out, head.naces, aces))
}
