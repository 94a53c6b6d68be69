// The orientation test in binary64: its formula stands in specs/, and why its answer is certain in proofs/.
#![tactic(auto)]
