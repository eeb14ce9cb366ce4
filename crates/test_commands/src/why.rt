//! The rule of each decision table, the lines, and the command over files in memory.

mod commands;
mod lines;
mod rules;
