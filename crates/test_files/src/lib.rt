//! Tests of files: batches and their replies, blocks, books as JSON, and logs.
#![tactic(auto)]

#[cfg(test)]
mod batches;
#[cfg(test)]
mod blocks;
#[cfg(test)]
mod books;
#[cfg(test)]
mod logs;
