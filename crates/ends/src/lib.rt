// The ends of a cell, gathered row by row in lent work: each row is joined in one pass over it and the ends before it.
#![tactic(auto)]

pub mod gather;
pub mod join;
pub mod key;
