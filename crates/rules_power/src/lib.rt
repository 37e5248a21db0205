// A terminal that keeps its state in a store while the power is cut: images, days with power cuts in specs/, the theorems in proofs/.
// No code: the theorems are of any calls that meet the contracts, and of any program that stores as crate `store` says.
#![tactic(auto)]
