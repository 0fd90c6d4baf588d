// The rules: every definition about the machine, in specs/, in the order and the words of document
// 01. There is no code here; the engine's contracts are equations with these definitions.
#![tactic(auto)]
