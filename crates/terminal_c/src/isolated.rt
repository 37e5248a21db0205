// The exports of two questions: are the senders of a list isolated, and which library is this.
ghost use Rattle.std.specs.Prelude.{◌≡◌};
ghost use Rattle.rules.specs.Promises.Words.{was};
ghost use Rattle.rules_isolation.specs.Question.{report_of, isolation_of};
ghost use Rattle.rules_interface.specs.Memory.{tables_at};
ghost use Rattle.rules_interface.specs.Isolated.{report_words, identity};

use rules::{ACE_ROWS, CRED_ROWS};

// Whether the senders of a list are isolated from all others.
#[unsafe(no_mangle)]
pub extern "C" fn tillerclover_isolated_at<'a>(
    counts: &[u8; 4],
    devowner: &[u8; 16],
    rowners: &[u8; 64],
    creds: &'a [u8; CRED_ROWS],
    aces: &'a [u8; ACE_ROWS],
    senders: &[u8],
    words: &mut [u64; 3],
)
    ensures { words.new
        ≡ report_words (report_of (isolation_of (tables_at (was counts) (was devowner) (was rowners) (was creds) (was aces)) (was senders))) }
{
    terminal::tillerclover_isolated_at(counts, devowner, rowners, creds, aces, senders, words);
}

// The library's format and interface, in one number.
#[unsafe(no_mangle)]
pub extern "C" fn tillerclover_identity() -> u64
    ensures { result ≡ identity }
{
    terminal::tillerclover_identity()
}
