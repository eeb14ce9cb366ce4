//! Tests of batch files and reply files, over sources and sinks that fail.

mod failing_devices;
mod faults;
mod serial;
mod texts;
mod vectors;
