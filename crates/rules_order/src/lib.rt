// Access rows in any order (U14): what two tables that differ only in that order have in common in specs/, and the theorem over runs in proofs/.
// No code: the theorem is of any calls that meet the contracts.
#![tactic(auto)]
