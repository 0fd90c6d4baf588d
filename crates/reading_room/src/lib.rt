// The reading-room box of document 01, its records and its starred lines: no code.
#![tactic(auto)]
