//! Totals of a small day, worked out by hand, as lines and as a page; and the command over files in memory.

mod commands;
mod days;
mod most;
mod texts;
