//! A small book, taken apart by hand; and the command over files in memory.

mod commands;
mod words;
