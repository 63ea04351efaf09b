// Pools, writes under the once-only layer and journal stores: cases that are run, beside what is
// proved of all of them.
#![tactic(auto)]

#[cfg(test)]
mod commands;
#[cfg(test)]
mod journals;
#[cfg(test)]
mod pools;
#[cfg(test)]
mod requests;
