// Theorems over calls of the desk: the demands sentence by sentence, and what else follows from the contracts. No code.
#![tactic(auto)]
