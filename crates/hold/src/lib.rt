#![tactic(auto)]

// Tables that hold a map, and what a write leaves in them. There is no code here: everything stands in specs/ and proofs/.
