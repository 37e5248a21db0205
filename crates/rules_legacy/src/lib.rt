// Access lists of the older terminals: their form, what they gave and what they become in specs/; that the rows made give the same in proofs/.
// No code: the crate `list_convert` makes the rows.
#![tactic(auto)]
