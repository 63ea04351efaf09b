// The once-only layer: a kind over any kind, under which a write that is repeated counts once (in the
// field: a session table that makes writes exactly-once).
#![tactic(auto)]

pub mod layer;
