//! Tests of logs: their bytes, faults, torn tails, files that fail, and files of the host.

mod failing;
mod faults;
mod files;
mod texts;
mod vectors;
mod writing;
