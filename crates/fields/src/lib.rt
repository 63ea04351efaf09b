// Lines as fields: numbers and letters behind tabs, read from a line and written to a buffer.
#![tactic(auto)]

pub mod buffer;
pub mod fault;
pub mod numeral;
pub mod opening;
pub mod reader;
pub mod reading;
pub mod token;
pub mod writing;
