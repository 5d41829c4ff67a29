// What lent tables hold: how many rows, a dart's row of links, and the axes along which a dart is free.
#![tactic(auto)]

pub mod capacity;
pub mod free;
pub mod links;
