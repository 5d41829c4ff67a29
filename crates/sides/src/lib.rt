// The commands that go from side to side, and those that only look: ADOPT, LIFT and COUNT on tables as a run leaves them.
#![tactic(auto)]

pub mod adopt;
pub mod count;
pub mod raise;
