// The text of a run: the input is cut into records after 32-bit clocks and 16-bit lengths, and a line for each is written into a caller's buffer.
// Each record is judged on the tables that the one before returned.
#![tactic(auto)]

mod records;

ghost use Rattle.std.specs.Prelude.{◌≡◌, [], ◌∷◌, ◌++◌, min, length};
ghost use Rattle.rows.specs.Words.{was};
ghost use Rattle.text.specs.Text.{decimal};
ghost use Rattle.text.specs.Buffer.{written, Puts, Counts};
ghost use Rattle.rules.specs.Defaults.{no_defaults, fresh};
ghost use Rattle.report.specs.Run.{lent, line, cut, lines, run_text};
ghost use Rattle.report.specs.Judged.{judged_as};
ghost use Rattle.report.specs.Fits.{LineFits, LinesFit, Whole};

use judge::judge;
use records::{Cut, Records};
use rules::{DefaultLists, REPLY_MAX, Tables};
use rules_terminal::QUEUE;
use text::{put, put_byte, put_decimal};

// A number in decimal, and the byte after it.
fn put_number(out: &mut [u8], at: usize, n: usize, after: u8) -> usize
    ensures { Puts out.old at (decimal n ++ after ∷ []) out.new result }
{
    let p = put_decimal(out, at, n);
    put_byte(out, p, after)
}

fn put_line(
    out: &mut [u8],
    at: usize,
    number: usize,
    answer: u8,
    permission: u8,
    state: u8,
) -> usize
    ensures puts { Puts out.old at (line number answer permission state) out.new result }
    ensures line_fits { LineFits number answer permission state }
{
    let p = put_number(out, at, number, b' ');
    let p = put_number(out, p, answer as usize, b' ');
    let p = put_number(out, p, permission as usize, b' ');
    put_number(out, p, state as usize, b'\n')
}

fn put_cut(out: &mut [u8], at: usize) -> usize
    ensures { Puts out.old at cut out.new result }
{
    put(out, at, b"cut\n")
}

// A run starts from fresh tables of a build without default rows.
fn start_tables() -> Tables
    ensures { result ≡ fresh no_defaults }
{
    effect_fresh::defaults::fresh(DefaultLists {
        creds: b"",
        aces: b"",
    })
}

// What a line tells of a record, and the tables for the next one.
#[derive(Clone, Copy)]
struct Judged {
    answer: u8,
    permission: u8,
    tables: Tables,
}

// Judges a record with a buffer that fits any reply. Nothing waits in a run, so the queue is empty for each record.
fn judge_one(t: Tables, clock: u32, rec: &[u8]) -> Judged
    ensures { result ≡ judged_as t (lent clock (was rec)) }
{
    let mut creds = t.creds;
    let mut aces = t.aces;
    let mut queue = [0; QUEUE];
    let mut reply = [0; REPLY_MAX];
    let j = judge(
        t.head(),
        &mut creds,
        &mut aces,
        &mut queue,
        DefaultLists {
            creds: b"",
            aces: b"",
        },
        clock,
        rec,
        &mut reply,
    );
    Judged {
        answer: j.answer,
        permission: j.permission,
        tables: Tables::from_parts(j.head, creds, aces),
    }
}

// The lines of a run, from fresh tables.
fn put_lines(out: &mut [u8], at: usize, input: &[u8]) -> usize
    ensures puts { Puts out.old at (lines (was input)) out.new result }
    ensures lines_fit { LinesFit (was input) }
{
    let mut p = at;
    let mut t = start_tables();
    for (index, entry) in Records::new(input).enumerate() {
        let number = index + 1;
        match entry {
            Ok(entry) => {
                let j = judge_one(t, entry.clock, entry.bytes);
                let next = j.tables;
                p = put_line(out, p, number, j.answer, j.permission, next.state);
                t = next;
            }
            Err(Cut) => p = put_cut(out, p),
        }
    }
    p
}

// The text of a run, as much of it as the buffer holds; the result is how many bytes that is.
// `whole`: a buffer of 131,092 bytes holds all of it, for every run that the run program reads. `part`: a caller may take `&out[..r]`.
// Rules out: every record judged on the first tables; every record judged at the first clock; a cut record judged.
pub fn run_text(input: &[u8], out: &mut [u8]) -> usize
    ensures count { result ≡ min (length (run_text (was input))) (length out.old) }
    ensures buffer { out.new ≡ written out.old 0 (run_text (was input)) }
    ensures whole { Whole (was input) out.old result }
    ensures part { Counts result out.new }
{
    let p = put(out, 0, b"n answer perm state\n");
    let p = put_lines(out, p, input);
    text::within(out, p)
}
