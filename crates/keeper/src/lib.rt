// A keeper (in the field: an acceptor): it keeps the records of a group's registers in a store, and
// answers the messages of hubs.
#![tactic(auto)]

pub mod keeper;
pub mod refusal;
pub mod rules;
pub mod step;
#[cfg(test)]
mod tests;
