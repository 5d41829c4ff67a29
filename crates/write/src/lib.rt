// The lifted map written level by level: blocks are laid, then linked, then joined over the boundary.
#![tactic(auto)]

pub mod level;
pub mod link;
