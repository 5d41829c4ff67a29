#![tactic(auto)]

// Numbers of lifted darts, and the number to which each of their links leads. There is no code here: everything stands in specs/ and proofs/.
