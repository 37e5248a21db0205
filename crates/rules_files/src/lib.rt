// Files of access rows over typed rows: the test of a list (U10) and older lists (U12), in specs/; proofs/ shows that what the contracts cite is this.
// No code.
#![tactic(auto)]
