// Demand 1 about the rules, for every machine and every list of events: what a refusal leaves, and
// when there is one. The claims stand in specs/, the theorems in proofs/. There is no code here.
#![tactic(auto)]
