// What holds of every run of a sheet, by what holds of every list of calls: laws in proofs/, and no code.
#![tactic(auto)]
