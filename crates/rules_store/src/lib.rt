// A store that a power cut cannot break: layout, step, cuts and histories in specs/, the theorems in proofs/.
// No code but the type of a step: the crate `store` computes it.
#![tactic(auto)]

// What a program does next to store an image: it writes a byte, or it is done, or the store has another length than one for this image.
#[derive(Clone, Copy, PartialEq, Eq)]
pub enum Step {
    Write { at: usize, byte: u8 },
    Done,
    Unfit,
}
