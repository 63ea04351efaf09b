// A keeper that answers lines.
#![tactic(auto)]

pub mod answer;
