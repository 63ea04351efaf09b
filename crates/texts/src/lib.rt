// The trait of values that travel in lines, and the text forms of the kinds and of the parts of messages.
#![tactic(auto)]

pub mod meter;
pub mod parts;
pub mod pool;
pub mod row;
pub mod text;
