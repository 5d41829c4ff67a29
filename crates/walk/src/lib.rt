// The ends of a cell walked beside a row: the row descended to its next piece, with the ends below a span found by halving; its pieces counted.
#![tactic(auto)]

pub mod count;
pub mod next;
pub mod seek;
