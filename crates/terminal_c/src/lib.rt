// What the archive exports to C: the functions of crate `terminal`, each under its own name, with the same parameters and the same promise.
// A function here only calls the one there: a contract that promised more than the other, or another thing, would be refused.
#![tactic(auto)]

mod isolated;
mod lists;
mod storing;

ghost use Rattle.std.specs.Prelude.{length};
ghost use Rattle.rules.specs.Promises.Words.{was};
ghost use Rattle.rules.specs.Record.{received};
ghost use Rattle.rules.specs.Defaults.{defaults};
ghost use Rattle.rules_interface.specs.Memory.{memory_before};
ghost use Rattle.rules_interface.specs.Interface.{FreshAt, ClearsAt, IsSoundAt, HandsInAt, TakesAt, JudgesAt};
ghost use Rattle.terminal.specs.Memory.{memory_in};

use rules::{ACE_ROWS, CRED_ROWS};
use rules_terminal::QUEUE;

// Makes a new terminal.
#[unsafe(no_mangle)]
pub extern "C" fn tillerclover_fresh_at(
    counts: &mut [u8; 4],
    devowner: &mut [u8; 16],
    rowners: &mut [u8; 64],
    creds: &mut [u8; CRED_ROWS],
    aces: &mut [u8; ACE_ROWS],
    queue: &mut [u8; QUEUE],
    default_creds: &[u8],
    default_aces: &[u8],
)
    ensures { FreshAt (defaults (was default_creds) (was default_aces)) (memory_in counts.new devowner.new rowners.new creds.new aces.new queue.new) }
{
    terminal::tillerclover_fresh_at(
        counts,
        devowner,
        rowners,
        creds,
        aces,
        queue,
        default_creds,
        default_aces,
    );
}

// The clear button.
#[unsafe(no_mangle)]
pub extern "C" fn tillerclover_clear_at(
    counts: &mut [u8; 4],
    devowner: &mut [u8; 16],
    rowners: &mut [u8; 64],
    creds: &mut [u8; CRED_ROWS],
    aces: &mut [u8; ACE_ROWS],
    queue: &mut [u8; QUEUE],
    default_creds: &[u8],
    default_aces: &[u8],
)
    ensures { ClearsAt (defaults (was default_creds) (was default_aces))
        (memory_in counts.old devowner.old rowners.old creds.old aces.old queue.old) (memory_in counts.new devowner.new rowners.new creds.new aces.new queue.new) }
{
    terminal::tillerclover_clear_at(
        counts,
        devowner,
        rowners,
        creds,
        aces,
        queue,
        default_creds,
        default_aces,
    );
}

// Whether the terminal is sound: 1, or else 0.
#[unsafe(no_mangle)]
pub extern "C" fn tillerclover_is_sound_at<'a>(
    counts: &[u8; 4],
    devowner: &[u8; 16],
    rowners: &[u8; 64],
    creds: &'a [u8; CRED_ROWS],
    aces: &'a [u8; ACE_ROWS],
    queue: &[u8; QUEUE],
) -> u64
    ensures { IsSoundAt (memory_before counts devowner rowners creds aces queue) result }
{
    terminal::tillerclover_is_sound_at(counts, devowner, rowners, creds, aces, queue)
}

// Judges a record at once.
#[unsafe(no_mangle)]
pub extern "C" fn tillerclover_judge_at(
    counts: &mut [u8; 4],
    devowner: &mut [u8; 16],
    rowners: &mut [u8; 64],
    creds: &mut [u8; CRED_ROWS],
    aces: &mut [u8; ACE_ROWS],
    queue: &mut [u8; QUEUE],
    default_creds: &[u8],
    default_aces: &[u8],
    clock: u32,
    rec: &[u8],
    reply: &mut [u8],
    words: &mut [u64; 9],
)
    ensures { JudgesAt (defaults (was default_creds) (was default_aces)) (memory_in counts.old devowner.old rowners.old creds.old aces.old queue.old)
        (received clock (was rec) (length reply.old))
        words.new (memory_in counts.new devowner.new rowners.new creds.new aces.new queue.new) reply.old reply.new }
{
    terminal::tillerclover_judge_at(
        counts,
        devowner,
        rowners,
        creds,
        aces,
        queue,
        default_creds,
        default_aces,
        clock,
        rec,
        reply,
        words,
    );
}

// Hands a record in.
#[unsafe(no_mangle)]
pub extern "C" fn tillerclover_hand_in_at<'a>(
    counts: &[u8; 4],
    devowner: &[u8; 16],
    rowners: &[u8; 64],
    creds: &'a [u8; CRED_ROWS],
    aces: &'a [u8; ACE_ROWS],
    queue: &mut [u8; QUEUE],
    rec: &[u8],
    words: &mut [u64; 9],
)
    ensures { HandsInAt (memory_in (was counts) (was devowner) (was rowners) (was creds) (was aces) queue.old) (was rec) words.new queue.new }
{
    terminal::tillerclover_hand_in_at(counts, devowner, rowners, creds, aces, queue, rec, words);
}

// Takes the record whose turn it is, and judges it.
#[unsafe(no_mangle)]
pub extern "C" fn tillerclover_take_at(
    counts: &mut [u8; 4],
    devowner: &mut [u8; 16],
    rowners: &mut [u8; 64],
    creds: &mut [u8; CRED_ROWS],
    aces: &mut [u8; ACE_ROWS],
    queue: &mut [u8; QUEUE],
    default_creds: &[u8],
    default_aces: &[u8],
    clock: u32,
    reply: &mut [u8],
    words: &mut [u64; 9],
    size: &mut [u64; 1],
    bytes: &mut [u8; 256],
)
    ensures { TakesAt (defaults (was default_creds) (was default_aces)) (memory_in counts.old devowner.old rowners.old creds.old aces.old queue.old)
        clock (length reply.old)
        words.new size.new bytes.new (memory_in counts.new devowner.new rowners.new creds.new aces.new queue.new) reply.old reply.new }
{
    terminal::tillerclover_take_at(
        counts,
        devowner,
        rowners,
        creds,
        aces,
        queue,
        default_creds,
        default_aces,
        clock,
        reply,
        words,
        size,
        bytes,
    );
}
