#![tactic(auto)]

// Theorems about the definitions of `paper`. There is no code here: everything stands in specs/ and proofs/.
