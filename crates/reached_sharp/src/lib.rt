// That the claims about reached states are sharp: wrong managers, in specs/, of which each claim is
// false, and states in which the claims are not empty. There is no code here.
#![tactic(auto)]
