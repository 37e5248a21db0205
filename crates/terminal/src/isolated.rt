// The C interface of two questions: are the senders of a list isolated, and which library is this. Declared in
// include/tillerclover_yards.h: pointers, 64-bit lengths and scalars alone; the tables as five arrays, in the order of their bytes.
ghost use Rattle.std.specs.Prelude.{◌≡◌, eqb};
ghost use Rattle.rules.specs.Promises.Words.{was};
ghost use Rattle.rules_isolation.specs.Question.{report_of, isolation_of};
ghost use Rattle.rules_interface.specs.Memory.{tables_at};
ghost use Rattle.rules_interface.specs.Isolated.{report_words, identity};

use c_memory::head_at;
use isolation::isolation_of;
use rules::{ACE_ROWS, CRED_ROWS, Tables, TablesView};
use rules_isolation::IsolationReport;

// Whether the senders of a list are isolated from all others: the reason why not, 0 for none, the entry and the access row, in `words`.
// Rules out: tables whose counts are exchanged; a reason instead of an entry; a word left as it was.
pub fn tillerclover_isolated_at<'a>(
    counts: &[u8; 4],
    devowner: &[u8; 16],
    rowners: &[u8; 64],
    creds: &'a [u8; CRED_ROWS],
    aces: &'a [u8; ACE_ROWS],
    senders: &[u8],
    words: &mut [u64; 3],
)
    ensures { words.new
        ≡ report_words (report_of (isolation_of (tables_at (was counts) (was devowner) (was rowners) (was creds) (was aces)) (was senders))) }
{
    let head = head_at(counts, devowner, rowners);
    let tables = TablesView { head, creds, aces };
    let report = IsolationReport::from(isolation_of(tables, senders));
    *words = [report.reason as u64, report.entry as u64, report.row as u64];
}

// The library's format and interface, in one number.
// Rules out: the number of another format; that of another interface.
pub fn tillerclover_identity() -> u64
    ensures { result ≡ identity }
{
    1002000
}

// ---- callers in this language: what they promise can only be kept by what the two functions above promise

// The same question of tables by value, with the three words.
// Rules out: a contract above that leaves a word open.
pub fn isolated(t: Tables, senders: &[u8]) -> [u64; 3]
    ensures { result ≡ report_words (report_of (isolation_of t (was senders))) }
{
    let counts = [t.state, t.owned, t.ncreds, t.naces];
    let devowner = t.devowner;
    let rowners = t.rowners;
    let creds = t.creds;
    let aces = t.aces;
    let mut words = [0; 3];
    tillerclover_isolated_at(
        &counts, &devowner, &rowners, &creds, &aces, senders, &mut words,
    );
    words
}

// Whether a caller that was made for this identity may use the library.
// Rules out: a contract above that leaves the number open.
pub fn identified(expected: u64) -> bool
    ensures { result ≡ eqb expected identity }
{
    expected == tillerclover_identity()
}
