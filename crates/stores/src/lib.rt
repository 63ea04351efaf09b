// The stores that keepers keep their records in.
#![tactic(auto)]

pub mod making;
pub mod table;
