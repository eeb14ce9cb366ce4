//! Tests of audits: batches, journals and blocks that were worked out by hand, each with one thing changed.

mod batches;
mod blocks;
mod journals;
mod worked;
