// The worked cases of the rules: one table, and one proof that the rules give each row's outcome.
#![tactic(auto)]

pub mod theorems;
