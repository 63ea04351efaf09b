// A store that writes its puts one after another and is cleaned from time to time.
#![tactic(auto)]

pub mod journal;
