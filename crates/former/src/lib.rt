// A book, a transfer and its checks as they were before vessels had rules, transfers had ages and there was a scale:
// definitions in specs/, and in proofs/ that nothing has changed for those who use none of these. No code.
#![tactic(auto)]
