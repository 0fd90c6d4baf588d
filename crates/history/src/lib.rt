// The history of a run, in specs/: what is created and destroyed, read from the events and their
// answers alone. There is no code here.
#![tactic(auto)]
