// Examples of the rules, of the queue and of the order of rows, by computation.
// No code, and a crate of its own: an edit of the definitions does not compute them.
#![tactic(auto)]
