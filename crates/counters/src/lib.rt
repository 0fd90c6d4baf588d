// Demand 2 about the rules: each CPU's six counters are the history's counts since its last reset,
// modulo 2^32. The claim stands in specs/, the theorem in proofs/. There is no code here.
#![tactic(auto)]
