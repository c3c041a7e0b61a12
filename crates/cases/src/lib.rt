// Many small cases put to the definitions of paper, in specs/; that they hold is computed in proofs/. No code.
#![tactic(auto)]
