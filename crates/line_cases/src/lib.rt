// Lines that are read, written and refused: cases that are run, beside what is proved of all lines.
#![tactic(auto)]

#[cfg(test)]
mod faults;
#[cfg(test)]
mod lengths;
#[cfg(test)]
mod round_trips;
