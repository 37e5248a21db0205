// The C interface of lists: the access list as office text, the test of a list, and lists of the older terminals.
// A result is two words: the answer, and a row or a length.
ghost use Rattle.std.specs.Prelude.{◌≡◌, ℕ, [], ◌∷◌, MatchResult};
ghost use Rattle.rules.specs.Promises.Words.{was};
ghost use Rattle.rules_interface.specs.Memory.{memory_before};
ghost use Rattle.rules_interface.specs.Interface.{ListsAt, TestsAt, ConvertsAt};

use c_memory::head_at;
use rules::{ACE_ROWS, CRED_ROWS, TablesView};
use rules_lists::Tested;
use rules_terminal::QUEUE;

// The words of what was written: 0 and its length, or a refusal's number and 0.
fn two_words<E: Into<u8>>(written: Result<usize, E>) -> [u64; 2]
    ensures { MatchResult written (λ length. result ≡ 0 ∷ length ∷ [])
        (λ error. (number : ℕ) × E.converts error number × (result ≡ number ∷ 0 ∷ [])) }
{
    match written {
        Ok(length) => [0, length as u64],
        Err(error) => [error.into() as u64, 0],
    }
}

// The access list as office text.
// Rules out: a byte written on 17 or 18; another list's text; a length that is not the text's.
pub fn tillerclover_access_list_at<'a>(
    counts: &[u8; 4],
    devowner: &[u8; 16],
    rowners: &[u8; 64],
    creds: &'a [u8; CRED_ROWS],
    aces: &'a [u8; ACE_ROWS],
    queue: &[u8; QUEUE],
    text: &mut [u8],
    words: &mut [u64; 2],
)
    ensures { ListsAt (memory_before counts devowner rowners creds aces queue) words.new text.old text.new }
{
    let head = head_at(counts, devowner, rowners);
    let tables = TablesView { head, creds, aces };
    *words = two_words(office_list::access_list(tables, queue, text));
}

// Tests a list of access rows that the provisioning program writes.
// Rules out: a list of 33 rows accepted; another row named than the first bad one.
pub fn tillerclover_test_list_at(rows: &[u8], words: &mut [u64; 2])
    ensures { TestsAt (was rows) words.new }
{
    let found = Tested::from(list_validation::test_list(rows));
    *words = [found.answer as u64, found.row as u64];
}

// An access list of an older terminal as access rows.
// Rules out: a byte written on 23, 24 or 25; a byte changed after the rows; a length that is not that of the rows.
pub fn tillerclover_convert_list_at(file: &[u8], rows: &mut [u8], words: &mut [u64; 2])
    ensures { ConvertsAt (was file) words.new rows.old rows.new }
{
    *words = two_words(list_convert::convert(file, rows));
}
