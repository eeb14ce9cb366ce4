//! Tests of a live host: frames of links, links that are served over devices that fail, and logs that are decided again.
#![tactic(auto)]

#[cfg(test)]
mod ahead;
#[cfg(test)]
mod fixtures;
#[cfg(test)]
mod hosts;
#[cfg(test)]
mod links;
#[cfg(test)]
mod network;
#[cfg(test)]
mod replays;
#[cfg(test)]
mod serving;
#[cfg(test)]
mod several;
#[cfg(test)]
mod vectors;
