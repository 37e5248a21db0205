// The C interface: one call each of the library, declared in include/tillerclover.h.
// Arguments are pointers, 64-bit lengths and scalars only. Tables, queue, buffers and results belong to the caller and are changed in place.
#![tactic(auto)]

mod calls;
mod isolated;
mod lists;
mod storing;

ghost use Rattle.std.specs.Prelude.{length};
ghost use Rattle.rules.specs.Promises.Words.{was};
ghost use Rattle.rules.specs.Record.{received};
ghost use Rattle.rules.specs.Defaults.{defaults};
ghost use Rattle.rules_interface.specs.Memory.{memory_before};
ghost use Rattle.rules_interface.specs.Interface.{FreshAt, ClearsAt, IsSoundAt, HandsInAt, TakesAt, JudgesAt};
ghost use Rattle.terminal.specs.Memory.{memory_in};

pub use crate::isolated::{tillerclover_identity, tillerclover_isolated_at};
pub use crate::lists::{
    tillerclover_access_list_at, tillerclover_convert_list_at, tillerclover_test_list_at,
};
pub use crate::storing::{tillerclover_store_current, tillerclover_store_next};
use c_memory::{head_at, put_head, words_of};
use check_waiting::terminal_sound;
use effect_fresh::defaults::fresh_in;
use rules::{ACE_ROWS, CRED_ROWS, DefaultLists, TablesView};
use rules_terminal::QUEUE;

// Makes a new terminal of a build with these default rows, in memory of any content; nothing waits.
// Rules out: tables that are not sound; tables with an owner; a byte left of what was there.
pub fn tillerclover_fresh_at(
    counts: &mut [u8; 4],
    devowner: &mut [u8; 16],
    rowners: &mut [u8; 64],
    creds: &mut [u8; CRED_ROWS],
    aces: &mut [u8; ACE_ROWS],
    queue: &mut [u8; QUEUE],
    default_creds: &[u8],
    default_aces: &[u8],
)
    ensures { FreshAt (defaults (was default_creds) (was default_aces)) (memory_in counts.new devowner.new rowners.new creds.new aces.new queue.new) }
{
    let h = fresh_in(
        creds,
        aces,
        DefaultLists {
            creds: default_creds,
            aces: default_aces,
        },
    );
    put_head(h, counts, devowner, rowners);
    queue::clear(queue);
}

// The clear button: memory of any content.
// Rules out: a button that keeps a row; one that keeps a waiting record; one that asks for sound tables.
pub fn tillerclover_clear_at(
    counts: &mut [u8; 4],
    devowner: &mut [u8; 16],
    rowners: &mut [u8; 64],
    creds: &mut [u8; CRED_ROWS],
    aces: &mut [u8; ACE_ROWS],
    queue: &mut [u8; QUEUE],
    default_creds: &[u8],
    default_aces: &[u8],
)
    ensures { ClearsAt (defaults (was default_creds) (was default_aces))
        (memory_in counts.old devowner.old rowners.old creds.old aces.old queue.old) (memory_in counts.new devowner.new rowners.new creds.new aces.new queue.new) }
{
    tillerclover_fresh_at(
        counts,
        devowner,
        rowners,
        creds,
        aces,
        queue,
        default_creds,
        default_aces,
    );
}

// Whether the terminal is sound: 1, or else 0.
// Rules out: only the tables looked at; 1 of a terminal that answers each record with 1.
pub fn tillerclover_is_sound_at<'a>(
    counts: &[u8; 4],
    devowner: &[u8; 16],
    rowners: &[u8; 64],
    creds: &'a [u8; CRED_ROWS],
    aces: &'a [u8; ACE_ROWS],
    queue: &[u8; QUEUE],
) -> u64
    ensures { IsSoundAt (memory_before counts devowner rowners creds aces queue) result }
{
    let head = head_at(counts, devowner, rowners);
    let tables = TablesView { head, creds, aces };
    if terminal_sound(tables, queue) { 1 } else { 0 }
}

// Judges a record at once.
// Rules out: the payload of a refused record; a byte of the tables or of the queue changed on a refusal; a byte of the
// buffer changed after the reply; a record that outlives its credential row.
pub fn tillerclover_judge_at(
    counts: &mut [u8; 4],
    devowner: &mut [u8; 16],
    rowners: &mut [u8; 64],
    creds: &mut [u8; CRED_ROWS],
    aces: &mut [u8; ACE_ROWS],
    queue: &mut [u8; QUEUE],
    default_creds: &[u8],
    default_aces: &[u8],
    clock: u32,
    rec: &[u8],
    reply: &mut [u8],
    words: &mut [u64; 9],
)
    ensures { JudgesAt (defaults (was default_creds) (was default_aces)) (memory_in counts.old devowner.old rowners.old creds.old aces.old queue.old)
        (received clock (was rec) (length reply.old))
        words.new (memory_in counts.new devowner.new rowners.new creds.new aces.new queue.new) reply.old reply.new }
{
    let h = head_at(counts, devowner, rowners);
    let j = judge::judge(
        h,
        creds,
        aces,
        queue,
        DefaultLists {
            creds: default_creds,
            aces: default_aces,
        },
        clock,
        rec,
        reply,
    );
    put_head(j.head, counts, devowner, rowners);
    *words = words_of(j);
}

// Hands a record in. The tables are read alone.
// Rules out: a payload, or a permission, of a record that is only kept; a byte of the queue changed on a refusal.
pub fn tillerclover_hand_in_at<'a>(
    counts: &[u8; 4],
    devowner: &[u8; 16],
    rowners: &[u8; 64],
    creds: &'a [u8; CRED_ROWS],
    aces: &'a [u8; ACE_ROWS],
    queue: &mut [u8; QUEUE],
    rec: &[u8],
    words: &mut [u64; 9],
)
    ensures { HandsInAt (memory_in (was counts) (was devowner) (was rowners) (was creds) (was aces) queue.old) (was rec) words.new queue.new }
{
    let h = head_at(counts, devowner, rowners);
    let tables = TablesView {
        head: h,
        creds,
        aces,
    };
    let kept = hand_in::hand_in(tables, queue, rec);
    *words = words_of(kept);
}

// Takes the record whose turn it is, and judges it. With 1 and with 27 its length is 0.
// Rules out: the payload of a refused record; a record cut short; one that waits again after it was taken.
pub fn tillerclover_take_at(
    counts: &mut [u8; 4],
    devowner: &mut [u8; 16],
    rowners: &mut [u8; 64],
    creds: &mut [u8; CRED_ROWS],
    aces: &mut [u8; ACE_ROWS],
    queue: &mut [u8; QUEUE],
    default_creds: &[u8],
    default_aces: &[u8],
    clock: u32,
    reply: &mut [u8],
    words: &mut [u64; 9],
    size: &mut [u64; 1],
    bytes: &mut [u8; 256],
)
    ensures { TakesAt (defaults (was default_creds) (was default_aces)) (memory_in counts.old devowner.old rowners.old creds.old aces.old queue.old)
        clock (length reply.old)
        words.new size.new bytes.new (memory_in counts.new devowner.new rowners.new creds.new aces.new queue.new) reply.old reply.new }
{
    let h = head_at(counts, devowner, rowners);
    let u = take::take(
        h,
        creds,
        aces,
        queue,
        DefaultLists {
            creds: default_creds,
            aces: default_aces,
        },
        clock,
        reply,
    );
    let told = u.judgement;
    let taken = u.bytes;
    put_head(told.head, counts, devowner, rowners);
    *size = [u.size as u64];
    *bytes = taken;
    *words = words_of(told);
}
