//! Tests of commands over files in memory: `archive`, `part`, `decide`, `join`, `report` and `why`; messages that are written by hand, and
//! batches and blocks that are taken apart and shown as JSON.
#![tactic(auto)]

#[cfg(test)]
mod archive;
#[cfg(test)]
mod files;
#[cfg(test)]
mod making;
#[cfg(test)]
mod parts;
#[cfg(test)]
mod report;
#[cfg(test)]
mod showing;
#[cfg(test)]
mod unpacking;
#[cfg(test)]
mod unpacking_blocks;
#[cfg(test)]
mod why;
