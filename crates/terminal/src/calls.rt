// A call of each exported function, with the promise that the theorems over C calls suppose of it (crate `rules_interface`).
// Its contract is all that a call here knows: an exported function that promises less is refused here.
ghost use Rattle.std.specs.Prelude.{length};
ghost use Rattle.rules.specs.Promises.Words.{was};
ghost use Rattle.rules.specs.Record.{received};
ghost use Rattle.rules.specs.Defaults.{no_defaults, defaults};
ghost use Rattle.rules_terminal.specs.Inputs.{hand_in, take_at, direct};
ghost use Rattle.rules_interface.specs.Memory.{memory_before, with_queue};
ghost use Rattle.rules_interface.specs.Interface.{FreshAt, ClearsAt, IsSoundAt, ListsAt, TestsAt, ConvertsAt};
ghost use Rattle.rules_interface.specs.Storing.{StoresNext, StoresCurrent};
ghost use Rattle.rules_interface.specs.Calls.{Promised, hand_in_call, judge_call, take_call};
ghost use Rattle.terminal.specs.Memory.{memory_in};

use crate::lists::{
    tillerclover_access_list_at, tillerclover_convert_list_at, tillerclover_test_list_at,
};
use crate::storing::{tillerclover_store_current, tillerclover_store_next};
use crate::{
    tillerclover_clear_at, tillerclover_fresh_at, tillerclover_hand_in_at,
    tillerclover_is_sound_at, tillerclover_judge_at, tillerclover_take_at,
};
use rules::{ACE_ROWS, CRED_ROWS};
use rules_terminal::QUEUE;

pub fn fresh(
    counts: &mut [u8; 4],
    devowner: &mut [u8; 16],
    rowners: &mut [u8; 64],
    creds: &mut [u8; CRED_ROWS],
    aces: &mut [u8; ACE_ROWS],
    queue: &mut [u8; QUEUE],
    default_creds: &[u8],
    default_aces: &[u8],
)
    ensures { FreshAt (defaults (was default_creds) (was default_aces)) (memory_in counts.new devowner.new rowners.new creds.new aces.new queue.new) }
{
    tillerclover_fresh_at(
        counts,
        devowner,
        rowners,
        creds,
        aces,
        queue,
        default_creds,
        default_aces,
    );
}

pub fn clear(
    counts: &mut [u8; 4],
    devowner: &mut [u8; 16],
    rowners: &mut [u8; 64],
    creds: &mut [u8; CRED_ROWS],
    aces: &mut [u8; ACE_ROWS],
    queue: &mut [u8; QUEUE],
    default_creds: &[u8],
    default_aces: &[u8],
)
    ensures { ClearsAt (defaults (was default_creds) (was default_aces))
        (memory_in counts.old devowner.old rowners.old creds.old aces.old queue.old) (memory_in counts.new devowner.new rowners.new creds.new aces.new queue.new) }
{
    tillerclover_clear_at(
        counts,
        devowner,
        rowners,
        creds,
        aces,
        queue,
        default_creds,
        default_aces,
    );
}

pub fn is_sound<'a>(
    counts: &[u8; 4],
    devowner: &[u8; 16],
    rowners: &[u8; 64],
    creds: &'a [u8; CRED_ROWS],
    aces: &'a [u8; ACE_ROWS],
    queue: &[u8; QUEUE],
) -> u64
    ensures { IsSoundAt (memory_before counts devowner rowners creds aces queue) result }
{
    tillerclover_is_sound_at(counts, devowner, rowners, creds, aces, queue)
}

pub fn judge(
    counts: &mut [u8; 4],
    devowner: &mut [u8; 16],
    rowners: &mut [u8; 64],
    creds: &mut [u8; CRED_ROWS],
    aces: &mut [u8; ACE_ROWS],
    queue: &mut [u8; QUEUE],
    default_creds: &[u8],
    default_aces: &[u8],
    clock: u32,
    rec: &[u8],
    reply: &mut [u8],
    words: &mut [u64; 9],
)
    ensures { Promised (defaults (was default_creds) (was default_aces)) (memory_in counts.old devowner.old rowners.old creds.old aces.old queue.old)
        (direct (received clock (was rec) (length reply.old)))
        (judge_call words.new (memory_in counts.new devowner.new rowners.new creds.new aces.new queue.new) reply.old reply.new) }
{
    tillerclover_judge_at(
        counts,
        devowner,
        rowners,
        creds,
        aces,
        queue,
        default_creds,
        default_aces,
        clock,
        rec,
        reply,
        words,
    );
}

pub fn hand_in<'a>(
    counts: &[u8; 4],
    devowner: &[u8; 16],
    rowners: &[u8; 64],
    creds: &'a [u8; CRED_ROWS],
    aces: &'a [u8; ACE_ROWS],
    queue: &mut [u8; QUEUE],
    rec: &[u8],
    words: &mut [u64; 9],
)
    ensures { Promised no_defaults (memory_in (was counts) (was devowner) (was rowners) (was creds) (was aces) queue.old) (hand_in (was rec))
        (hand_in_call words.new (with_queue (memory_in (was counts) (was devowner) (was rowners) (was creds) (was aces) queue.old) queue.new)) }
{
    tillerclover_hand_in_at(counts, devowner, rowners, creds, aces, queue, rec, words);
}

pub fn take(
    counts: &mut [u8; 4],
    devowner: &mut [u8; 16],
    rowners: &mut [u8; 64],
    creds: &mut [u8; CRED_ROWS],
    aces: &mut [u8; ACE_ROWS],
    queue: &mut [u8; QUEUE],
    default_creds: &[u8],
    default_aces: &[u8],
    clock: u32,
    reply: &mut [u8],
    words: &mut [u64; 9],
    size: &mut [u64; 1],
    bytes: &mut [u8; 256],
)
    ensures { Promised (defaults (was default_creds) (was default_aces)) (memory_in counts.old devowner.old rowners.old creds.old aces.old queue.old)
        (take_at clock (length reply.old))
        (take_call words.new size.new bytes.new (memory_in counts.new devowner.new rowners.new creds.new aces.new queue.new) reply.old reply.new) }
{
    tillerclover_take_at(
        counts,
        devowner,
        rowners,
        creds,
        aces,
        queue,
        default_creds,
        default_aces,
        clock,
        reply,
        words,
        size,
        bytes,
    );
}

pub fn access_list<'a>(
    counts: &[u8; 4],
    devowner: &[u8; 16],
    rowners: &[u8; 64],
    creds: &'a [u8; CRED_ROWS],
    aces: &'a [u8; ACE_ROWS],
    queue: &[u8; QUEUE],
    text: &mut [u8],
    words: &mut [u64; 2],
)
    ensures { ListsAt (memory_before counts devowner rowners creds aces queue) words.new text.old text.new }
{
    tillerclover_access_list_at(counts, devowner, rowners, creds, aces, queue, text, words);
}

pub fn test_list(rows: &[u8], words: &mut [u64; 2])
    ensures { TestsAt (was rows) words.new }
{
    tillerclover_test_list_at(rows, words);
}

pub fn convert_list(file: &[u8], rows: &mut [u8], words: &mut [u64; 2])
    ensures { ConvertsAt (was file) words.new rows.old rows.new }
{
    tillerclover_convert_list_at(file, rows, words);
}

pub fn store_next(
    store: &[u8],
    image: &[u8],
    from: usize,
    address: &mut [u64; 1],
    byte: &mut [u8; 1],
) -> u64
    ensures { StoresNext (was store) (was image) from result address.old byte.old address.new byte.new }
{
    tillerclover_store_next(store, image, from, address, byte)
}

pub fn store_current(store: &[u8], n: usize, address: &mut [u64; 1]) -> u64
    ensures { StoresCurrent (was store) n result address.old address.new }
{
    tillerclover_store_current(store, n, address)
}
