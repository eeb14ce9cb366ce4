//! Tests of the program: its words, what it prints, and the samples by both engines.
#![tactic(auto)]

#[cfg(test)]
mod answers;
#[cfg(test)]
mod audits;
#[cfg(test)]
mod bad_batches;
#[cfg(test)]
mod bad_books;
#[cfg(test)]
mod batches;
#[cfg(test)]
mod blocks;
#[cfg(test)]
mod broken_files;
#[cfg(test)]
mod command_lines;
#[cfg(test)]
mod day;
#[cfg(test)]
mod host;
#[cfg(test)]
mod host_stage;
#[cfg(test)]
mod script;
#[cfg(test)]
mod texts;
#[cfg(test)]
mod words;
