// The tables of a new terminal, of the clear button and of RESET.
// Every public function is total: any lists, any tables.
#![tactic(auto)]

pub mod defaults;
