// Demand 3: waiting calls over every list of events, as one claim about the rules, in specs/. There
// is no code here; the engine's contracts tie the code to the rules.
#![tactic(auto)]
