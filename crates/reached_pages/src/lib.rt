// What holds of pages in every state that a list of events reaches, in specs/: what a cell may
// touch, and what no two cells may. There is no code here; the claims are proved in proofs/.
#![tactic(auto)]
