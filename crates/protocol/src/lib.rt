// The words that the whole library shares: rounds, records, messages, group sizes, refusals,
// and the two traits that everything above is generic over, `Kind` and `Store`.
#![tactic(auto)]

pub mod group;
pub mod kind;
pub mod making;
pub mod message;
pub mod record;
pub mod refusal;
pub mod round;
pub mod store;
