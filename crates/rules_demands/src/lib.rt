// The demands of document 01 over the rules as one reads them: of any calls, and of C calls.
// No code.
#![tactic(auto)]
