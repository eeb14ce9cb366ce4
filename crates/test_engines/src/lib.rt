//! Tests of deciding: rows and one decision, batches one after another, and the engines by one text: batches that come out as one after
//! another, workers that overlap, and the hook. And of parts: how a batch falls into them, what rows each has, and what it comes to.
#![tactic(auto)]

#[cfg(test)]
mod batches;
#[cfg(test)]
mod deciding;
#[cfg(test)]
mod heavy;
#[cfg(test)]
mod hook_order;
#[cfg(test)]
mod hooks;
#[cfg(test)]
mod longest;
#[cfg(test)]
mod overlaps;
#[cfg(test)]
mod parts_joined;
#[cfg(test)]
mod parts_planned;
#[cfg(test)]
mod parts_run;
#[cfg(test)]
mod tables;
