// Each call in plain words, a transfer as a lift and a tip, and what waits on the scale: laws in proofs/, and no code.
#![tactic(auto)]
