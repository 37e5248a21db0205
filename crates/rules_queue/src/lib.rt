// Waiting records (U13) over typed tables: hand-ins, takes and the round, in specs/; proofs/ shows that what the contracts cite is this, written.
// No code.
#![tactic(auto)]
