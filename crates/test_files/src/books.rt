//! Tests of books as JSON: what is written and read, the faults of texts, and versions 1 and 2.

mod books;
mod faults;
mod large;
mod order;
mod texts;
