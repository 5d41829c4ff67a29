// The commands that write one table of the plan, or clear it.
#![tactic(auto)]

pub mod dart;
pub mod new;
pub mod place;
pub mod unsew;
