// What document 01 says. The types stand here, their meaning in specs/, the theorems in proofs/.
#![tactic(auto)]

pub mod answer;
pub mod ledger;
pub mod record;
pub mod rules;
