// Worked cases: tables of calls and of what is seen after them, in proofs/, and no code.
#![tactic(auto)]
