//! What a person is told of a fault, in one line: the file's name, the place and the reason.
#![tactic(auto)]

mod block_words;
mod body_words;
mod command_files;
mod explaining;
mod file_kind;
mod file_reasons;
mod head_words;
mod line_reason;
mod log_words;
mod of_log;
mod one_file;
mod one_line;
mod reason;
mod telling;
mod told;
mod unread_words;
mod used_file;
mod used_files;

pub use block_words::BlockWords;
pub use body_words::BodyWords;
pub use explaining::{told_of, words_of};
pub use file_kind::FileKind;
pub use head_words::HeadWords;
pub use line_reason::{LineReason, reason_of_line};
pub use log_words::LogWords;
pub use of_log::words_of_log;
pub use one_file::{
    line_of_words, tell_of_any_file, tell_of_book_or_batch, tell_of_file, words_of_book,
    words_of_file,
};
pub use reason::Reason;
pub use telling::tell_with;
pub use told::Told;
pub use unread_words::UnreadWords;
pub use used_file::{FileUse, UsedFile};
pub use used_files::{words_of_used, words_of_written};
