// The records judged in a run, with their bytes taken from the hand-ins (U13): the definition in specs/, the theorems over any calls in proofs/.
// No code: the theorems are of any calls that meet the contracts.
#![tactic(auto)]
