// Changes of the queue: a record is kept, a seat is emptied, and slots are dropped with their credential rows.
// Nothing here knows what a record asks for; every byte afterwards is given.
#![tactic(auto)]

mod view;

ghost use Rattle.std.specs.Prelude.{◌≡◌, cond, ◌∷◌, ◌++◌, ◌≤◌, ◌<◌, length, drop, get_or};
ghost use Rattle.rows.specs.Words.{was};
ghost use Rattle.rows.specs.Rows.{without, has_key};
ghost use Rattle.rules_terminal.specs.Slots.{anew, after_seat, slot_of, record_of, round_bytes, round_of, waiting, queue_of, empty_queue};
ghost use Rattle.rules_terminal.specs.Round.{seats_in, is_seat, orphaned, valid_round};
ghost use Rattle.rules_terminal.specs.Terminal.{with_record};
ghost use Rattle.queue.specs.Queue.{IsQueue};
ghost use Rattle.queue.specs.Viewed.{round_from};

use fields::{be16, cred_rows, skip};
use rows::{copy_bytes, part};
use rules::CRED_ROWS;
use rules_terminal::{QUEUE, SLOT};
pub use view::Queue;

// The record that a slot keeps.
// Rules out: the slot's head taken for the record; a byte after the record.
pub fn record_in(slot: &[u8]) -> &[u8]
    ensures { result.now ≡ record_of (was slot) }
{
    let n = be16(skip(slot, 2)) as usize;
    part(slot, 4, n)
}

// The slot that keeps a record.
fn slot_of(rec: &[u8]) -> [u8; SLOT]
    requires { (4 ≤ length rec.now) × (length rec.now ≤ 256) }
    ensures { result ≡ slot_of (was rec) }
{
    let n = rec.len();
    let [high, low] = (n as u16).to_be_bytes();
    let mut slot = [0; SLOT];
    copy_bytes(&mut slot[..4], &[rec[2], rec[3], high, low]);
    copy_bytes(&mut slot[4..4 + n], rec);
    slot
}

// Keeps a record in its sender's seat.
// Rules out: a record in another's seat; a record that lost a byte; a round that moves.
pub fn enqueue(queue: &mut [u8], rec: &[u8])
    requires { (IsQueue queue.old) × (get_or queue.old 0 0 < 25) × (4 ≤ length rec.now) × (length rec.now ≤ 256) }
    ensures { queue.new ≡ with_record (was rec) queue.old }
{
    let count = Queue::new(queue).count();
    let slot = slot_of(rec);
    let left = rows_change::store(&mut queue[4..], SLOT, count, &slot);
    queue[0] = left as u8;
}

// Writes the count and the round before the slots.
fn put_head(queue: &mut [u8], count: usize, last_seat: Option<[u8; 2]>)
    requires { (4 ≤ length queue.old) × (count ≤ 25) }
    ensures { queue.new ≡ count ∷ (round_bytes (round_from last_seat) ++ drop 4 queue.old) }
{
    let round = match last_seat {
        Some(seat) => [1, seat[0], seat[1]],
        None => [0; 3],
    };
    queue[0] = count as u8;
    copy_bytes(&mut queue[1..4], &round);
}

// Removes the record of a seat. The round continues after that seat.
// Rules out: another's record emptied; a round that is still.
pub fn dequeue(queue: &mut [u8], seat: &[u8])
    requires { (IsQueue queue.old) × (length seat.now ≡ 2) }
    ensures { queue.new ≡ queue_of (after_seat (was seat)) (without (has_key 0 (was seat)) (waiting queue.old)) }
{
    let count = Queue::new(queue).count();
    let left = rows_change::remove(&mut queue[4..], SLOT, count, 0, seat);
    put_head(queue, left, Some([seat[0], seat[1]]));
}

// Whether a seat is one of those of `count` credential rows.
fn is_seat(count: u8, creds: &[u8; CRED_ROWS], seat: &[u8]) -> bool
    requires { length seat.now ≡ 2 }
    ensures { result ≡ is_seat (seats_in count (was creds)) (was seat) }
{
    rows::all_zero(seat, 0) || cred_rows(count, creds).find(0, seat).is_some()
}

// True if the round's seat still has a credential row. A round that starts over is always valid.
// Rules out: a round after a seat that no row has; one lost whose seat a row has. For a round that starts over either result is correct.
pub fn round_valid(count: u8, creds: &[u8; CRED_ROWS], queue: &[u8]) -> bool
    requires { IsQueue queue.now }
    ensures { valid_round (seats_in count (was creds)) (round_of (was queue)) ≡ cond result (round_of (was queue)) anew }
{
    let Some(seat) = Queue::new(queue).last_seat() else {
        return true;
    };
    is_seat(count, creds, &seat)
}

// Drops the slots whose credential row is gone, and starts the round over if its seat is gone.
// `was_valid` is the result of `round_valid` with the rows before: so no copy of those is kept.
// Rules out: a record that outlives its row; a record that is dropped though its row stays; a round that a new row revives.
pub fn settle(was_valid: bool, count: u8, creds: &[u8; CRED_ROWS], queue: &mut [u8])
    requires { IsQueue queue.old }
    ensures { queue.new
        ≡ queue_of (valid_round (seats_in count (was creds)) (cond was_valid (round_of queue.old) anew))
        (without (orphaned (seats_in count (was creds))) (waiting queue.old)) }
{
    let before = Queue::new(queue);
    let round = before
        .last_seat()
        .filter(|seat| was_valid && is_seat(count, creds, seat));
    let used = before.count();
    let kept = rows_change::retain(
        &mut queue[4..],
        SLOT,
        used,
        |slot| is_seat(count, creds, &slot[..2]),
    );
    put_head(queue, kept, round);
}

// Nothing waits, and the round starts over.
// Rules out: a byte left.
pub fn clear(queue: &mut [u8; QUEUE])
    ensures { queue.new ≡ empty_queue }
{
    *queue = [0; QUEUE];
}
