// How many darts the lift of a plan has, level by level: the two upper ones dart by dart, the others cell by cell. The pieces of each plan dart stand in its base then.
#![tactic(auto)]

pub mod level;
pub mod turn;
pub mod upper;
