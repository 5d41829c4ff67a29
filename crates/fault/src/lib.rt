// The faults of a dart, one test each: of its links (6, 7, 8), its place (9) and its row of spans (10, 11).
#![tactic(auto)]

pub mod links;
pub mod places;
pub mod spans;
