//! What is put together is what `serial` gives, and each folder that is refused.

mod commands;
mod day;
mod words;
