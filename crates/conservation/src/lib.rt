// What every list of calls keeps, with the weigh book: definitions in specs/, laws in proofs/, and no code.
#![tactic(auto)]
