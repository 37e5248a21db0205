// What C is promised, over the bytes that it passes: the definitions in specs/, the theorems over lists of C calls in proofs/.
// No code: the crate `terminal` has the exported functions, and each of them is held to these words.
#![tactic(auto)]
