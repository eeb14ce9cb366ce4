//! Tests of block files: their table, and sources and sinks that fail.

mod deciding;
mod halts;
mod serial;
mod texts;
