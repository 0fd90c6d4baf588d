// What holds of every state that a list of events reaches, in specs/: owners of CPUs, live cells
// and their records, the pool. There is no code here; the claims are proved in proofs/.
#![tactic(auto)]
