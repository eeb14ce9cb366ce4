//! Tests of lines: what a batch and its replies are shown as, and bodies read from hexadecimal text.

mod bodies;
mod lines;
