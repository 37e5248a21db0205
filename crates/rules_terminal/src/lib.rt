// Waiting records and the round: the queue's definitions in specs/, and the theorems over them in proofs/.
// No code but the types that definitions and code share: the crate `hand_in` hands in, and `take` takes.
#![tactic(auto)]

use rules::Judgement;

// Bytes of a slot, slots at most, and bytes of the queue, in which the count and the round come before the slots.
pub const SLOT: usize = 260;

pub const SLOTS: usize = 25;

pub const QUEUE: usize = 4 + SLOTS * SLOT;

// What a take gives: all that a judged record gets, and the record itself by value with its length; zeros are after it.
#[derive(Clone, Copy)]
pub struct Taken {
    pub judgement: Judgement,
    pub size: usize,
    pub bytes: [u8; 256],
}
