// The queue's bytes, read: how many slots are used, the seat that was taken last, the slots.
// That the bytes are all there, and that no more slots are used than there are, is a fact of the type.
ghost use Rattle.std.specs.Prelude.{◌≡◌, ◌≤◌, ◌<◌, MatchOption, get_or, length};
ghost use Rattle.rows.specs.Words.{was};
ghost use Rattle.rows.specs.Listed.{listed};
ghost use Rattle.rules_terminal.specs.Slots.{queue_capacity, queue_size, round_of, waiting};

use rows::Rows;
use rules_terminal::{QUEUE, SLOT, SLOTS};

// The bytes of a queue: the count, the round, and then the slots.
#[derive(Clone, Copy)]
pub struct Queue<'a> {
    bytes: &'a [u8],
    ghost long: { length bytes.now ≡ queue_size },
    ghost few: { get_or bytes.now 0 0 ≤ queue_capacity },
}

impl<'a> Queue<'a> {
    ghost use Rattle.queue.specs.Viewed.{viewed, round_from};

    // Rules out: other bytes.
    pub fn new(bytes: &'a [u8]) -> Queue<'a>
        requires { (length bytes.now ≡ queue_size) × (get_or bytes.now 0 0 ≤ queue_capacity) }
        ensures { viewed result ≡ was bytes }
    {
        Queue { bytes }
    }

    // The queue in these bytes, or none where more slots are counted than there are.
    // Rules out: 26 slots in use; a queue refused whose slots are all used.
    pub fn read(bytes: &'a [u8; QUEUE]) -> Option<Queue<'a>>
        ensures { MatchOption result (queue_capacity < get_or (was bytes) 0 0) (λ queue. viewed queue ≡ was bytes) }
    {
        let bytes = &bytes[..];
        if SLOTS < bytes[0] as usize {
            return None;
        }
        Some(Queue::new(bytes))
    }

    // How many slots are used.
    // Rules out: one fewer.
    pub fn count(self) -> usize
        ensures { result ≡ get_or (viewed self.entry) 0 0 }
    {
        self.bytes[0] as usize
    }

    // The seat that was taken last, or none where the round starts over.
    // Rules out: a seat where the round starts over; the seat of a slot.
    pub fn last_seat(self) -> Option<[u8; 2]>
        ensures { round_from result ≡ round_of (viewed self.entry) }
    {
        if self.bytes[1] == 0 {
            return None;
        }
        Some([self.bytes[2], self.bytes[3]])
    }

    // The slots that are used.
    // Rules out: the last of them left out; a slot that is not used.
    pub fn slots(self) -> Rows<'a>
        ensures { listed result ≡ waiting (viewed self.entry) }
    {
        Rows::new(&self.bytes[4..], SLOT, self.count())
    }
}
