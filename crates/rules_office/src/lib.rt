// The office text of an access list: its definition in specs/, and the theorem that it tells lists apart in proofs/.
// No code: the crate `office_list` writes the text.
#![tactic(auto)]
