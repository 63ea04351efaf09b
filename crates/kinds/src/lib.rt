// The kinds of value that registers hold.
#![tactic(auto)]

pub mod meter;
pub mod pool;
