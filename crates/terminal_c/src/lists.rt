// The exports of lists: the access list as office text, the test of a list, and lists of the older terminals.
ghost use Rattle.rules.specs.Promises.Words.{was};
ghost use Rattle.rules_interface.specs.Memory.{memory_before};
ghost use Rattle.rules_interface.specs.Interface.{ListsAt, TestsAt, ConvertsAt};

use rules::{ACE_ROWS, CRED_ROWS};
use rules_terminal::QUEUE;

// The access list as office text.
#[unsafe(no_mangle)]
pub extern "C" fn tillerclover_access_list_at<'a>(
    counts: &[u8; 4],
    devowner: &[u8; 16],
    rowners: &[u8; 64],
    creds: &'a [u8; CRED_ROWS],
    aces: &'a [u8; ACE_ROWS],
    queue: &[u8; QUEUE],
    text: &mut [u8],
    words: &mut [u64; 2],
)
    ensures { ListsAt (memory_before counts devowner rowners creds aces queue) words.new text.old text.new }
{
    terminal::tillerclover_access_list_at(
        counts, devowner, rowners, creds, aces, queue, text, words,
    );
}

// Tests a list of access rows.
#[unsafe(no_mangle)]
pub extern "C" fn tillerclover_test_list_at(rows: &[u8], words: &mut [u64; 2])
    ensures { TestsAt (was rows) words.new }
{
    terminal::tillerclover_test_list_at(rows, words);
}

// An access list of an older terminal as access rows.
#[unsafe(no_mangle)]
pub extern "C" fn tillerclover_convert_list_at(file: &[u8], rows: &mut [u8], words: &mut [u64; 2])
    ensures { ConvertsAt (was file) words.new rows.old rows.new }
{
    terminal::tillerclover_convert_list_at(file, rows, words);
}
