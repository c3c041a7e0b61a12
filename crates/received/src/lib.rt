// That every extract reads as accepted at the desk of its entity: theorems over the definitions of paper. No code.
#![tactic(auto)]
