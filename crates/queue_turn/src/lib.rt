// Whose turn it is: the slot of the first occupied seat in turn, and the record that waits there.
// The round goes from the unauthenticated seat through the credential rows, starting after the last seat taken.
#![tactic(auto)]

ghost use Rattle.std.specs.Prelude.{◌≡◌, true, false, map, ◌∷◌, eqb, length, take, drop};
ghost use Rattle.rules.specs.Promises.Words.{was, seen};
ghost use Rattle.rows.specs.Listed.{listed};
ghost use Rattle.rules.specs.Tables.{tables_of};
ghost use Rattle.rules_terminal.specs.Slots.{round_of, waiting, slot_size};
ghost use Rattle.rules_terminal.specs.Round.{nobody, in_turn};
ghost use Rattle.rules_terminal.specs.Terminal.{terminal, sound_terminal};
ghost use Rattle.queue.specs.Viewed.{viewed, round_from};
ghost use Rattle.queue_turn.specs.Turns.{slot_in, rows_ahead, due_of};

use fields::cred_rows;
use queue::{Queue, record_in};
use rows::{Rows, copy_bytes, part};
use rules::TablesView;

// How many rows there are.
fn row_count(rows: Rows<'_>) -> usize
    ensures { result ≡ length (listed rows.entry) }
{
    rows.iter().count()
}

// How many credential rows are before the seat that is first in turn.
fn rows_before(rows: Rows<'_>, last_seat: Option<[u8; 2]>) -> usize
    ensures { result ≡ rows_ahead (round_from last_seat) (map (take 2) (listed rows.entry)) }
{
    let all = row_count(rows);
    let Some(seat) = last_seat else {
        return all;
    };
    if seat == [0; 2] {
        return 0;
    }
    let Some(i) = rows.find(0, &seat) else {
        return all;
    };
    i + 1
}

// The slot of the coming take: that of the occupied seat that comes first in turn.
// In three steps, since one walk by `chain` takes more instructions for each seat.
fn next_slot(rows: Rows<'_>, queue: Queue<'_>) -> Option<usize>
    ensures { result ≡ slot_in (waiting (viewed queue.entry))
        (in_turn (round_of (viewed queue.entry)) (nobody ∷ map (take 2) (listed rows.entry))) }
{
    let slots = queue.slots();
    let passed = rows_before(rows, queue.last_seat());
    for later in rows.iter().skip(passed) {
        if let Some(i) = slots.find(0, part(later, 0, 2)) {
            return Some(i);
        }
    }
    let nobody = [0; 2];
    if let Some(i) = slots.find(0, &nobody) {
        return Some(i);
    }
    for earlier in rows.iter().take(passed) {
        if let Some(i) = slots.find(0, part(earlier, 0, 2)) {
            return Some(i);
        }
    }
    None
}

// The bytes after a slot's head: its record, with zeros after.
fn record_bytes(slot: &[u8]) -> [u8; 256]
    requires { length slot.now ≡ slot_size }
    ensures { result ≡ drop 4 (was slot) }
{
    let mut bytes = [0; 256];
    copy_bytes(&mut bytes, &slot[4..]);
    bytes
}

// The record whose turn it is, with zeros after, its length and its seat.
// The bytes are a fixed array by value, since the library has no heap.
#[derive(Clone, Copy)]
pub struct Due {
    pub bytes: [u8; 256],
    pub size: usize,
    pub seat: [u8; 2],
}

// The record whose turn it is, in a sound terminal where one waits.
// Rules out: the first record that came; that of the last seat taken, once more; a byte of another record after it.
pub fn due_record(tables: TablesView<'_>, queue: &[u8]) -> Due
    requires { (sound_terminal (terminal (seen tables) queue.now) ≡ true) × (eqb (length (waiting queue.now)) 0 ≡ false) }
    ensures { result ≡ due_of (terminal (seen tables.entry) (was queue)) }
{
    let TablesView { head, creds, .. } = tables;
    let queue = Queue::new(queue);
    let due = next_slot(cred_rows(head.ncreds, creds), queue);
    let slot = queue.slots().row_at(due);
    Due {
        bytes: record_bytes(slot),
        size: record_in(slot).len(),
        seat: [slot[0], slot[1]],
    }
}
