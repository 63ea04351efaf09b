// The five messages as lines.
#![tactic(auto)]

pub mod letter;
pub mod line;
mod reading;
pub mod theorems;
pub mod writing;
