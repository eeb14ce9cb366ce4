//! Tests of messages and replies as bytes, of the values in them, and of the lines that they are shown as.
#![tactic(auto)]

#[cfg(test)]
mod faults;
#[cfg(test)]
mod forms;
#[cfg(test)]
mod listings;
#[cfg(test)]
mod masks;
#[cfg(test)]
mod round_trips;
#[cfg(test)]
mod values;
