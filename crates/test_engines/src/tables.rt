//! Tests of rows, of one decision and of the serial answer: values from outside, printed texts, and calls that succeed.

mod answers;
mod batches;
mod book_checks;
mod decisions;
mod serial;
