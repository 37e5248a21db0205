// The rules of document 01 and of the requests over typed tables and records, in specs/; proofs/ shows that the rules over bytes are these.
// No code: the contracts cite the rules over bytes.
#![tactic(auto)]
