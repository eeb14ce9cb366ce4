//! The files of a command, each at its place in the order in which it is read, claimed or made.

ghost use Rattle.std.specs.Prelude.{◌≡◌, IfSome, length, map, string_bytes};
ghost use Rattle.app_words.specs.Asked.{asked_of, names_of};
ghost use Rattle.app_reasons.specs.Tells.{IsAnswer, IsBookFor, IsFileFor, IsInput, IsOneOf, IsReadFor, IsTextFor, IsWrittenFor, texts_for};

use crate::file_kind::FileKind;
use app_words::Command;
use file_devices::BatchNames;

// The book, then the batch.
fn nth_input(names: &BatchNames, index: u8) -> Option<&str>
    ensures { IfSome result (λ name. IsInput (names_of names.now) name.now) }
{
    match index {
        0 => Some(names.book.as_str()),
        1 => Some(names.batch.as_str()),
        _ => None,
    }
}

// The replies, then the new book.
fn nth_answer(names: &BatchNames, index: u8) -> Option<&str>
    ensures { IfSome result (λ name. IsAnswer (names_of names.now) name.now) }
{
    match index {
        0 => Some(names.replies.as_str()),
        1 => Some(names.new_book.as_str()),
        _ => None,
    }
}

/// The file that is read at this place, from 0 to 4; of texts that are packed none.
pub(crate) fn nth_read(command: &Command, index: u8) -> Option<&str>
    ensures { IfSome result (λ name. IsReadFor (asked_of command.now) name.now) }
{
    match command {
        Command::Serial { names, .. }
        | Command::Run { names, .. }
        | Command::RunWithJournal { names, .. }
        | Command::Blocks { names, .. } => nth_input(names, index),
        Command::Audit { names, journal } => match index {
            0 | 1 => nth_input(names, index),
            2 | 3 => nth_answer(names, index - 2),
            _ => match journal {
                Some(journal) => Some(journal.as_str()),
                None => None,
            },
        },
        Command::AuditBlocks(names) => match index {
            0 | 1 => nth_input(names, index),
            2 | 3 => nth_answer(names, index - 2),
            _ => None,
        },
        Command::Show(file) => Some(file.as_str()),
        _ => None,
    }
}

/// How many texts are packed.
pub(crate) fn text_count(command: &Command) -> usize
    ensures { result ≡ length (texts_for (asked_of command.now)) }
{
    match command {
        Command::Pack { texts, .. } | Command::PackBlocks { texts, .. } => texts.len(),
        _ => 0,
    }
}

/// The text that is packed at this place, from 0.
pub(crate) fn nth_text(command: &Command, index: usize) -> Option<&str>
    ensures text { IfSome result (λ name. IsTextFor (asked_of command.now) name.now) }
    ensures read { IfSome result (λ name. IsReadFor (asked_of command.now) name.now) }
{
    match command {
        Command::Pack { texts, .. } | Command::PackBlocks { texts, .. } => nth_name(texts, index),
        _ => None,
    }
}

// The name at this place.
#[tactic(auto, using(crate::proofs::Named::named_at))]
fn nth_name(names: &[String], index: usize) -> Option<&str>
    ensures { IfSome result (λ name. IsOneOf (map string_bytes names.now) name.now) }
{
    if index < names.len() {
        Some(names[index].as_str())
    } else {
        None
    }
}

/// The file that is written at this place, from 0 to 2.
pub(crate) fn nth_written(command: &Command, index: u8) -> Option<&str>
    ensures { IfSome result (λ name. IsWrittenFor (asked_of command.now) name.now) }
{
    match command {
        Command::Serial { names, .. }
        | Command::Run { names, .. }
        | Command::Blocks { names, .. } => { nth_answer(names, index) }
        Command::RunWithJournal { names, journal, .. } => match index {
            0 | 1 => nth_answer(names, index),
            _ => Some(journal.as_str()),
        },
        Command::Pack { batch, .. } => Some(batch.as_str()),
        Command::PackBlocks { blocks, .. } => Some(blocks.as_str()),
        _ => None,
    }
}

/// The file that an audit claims at this place, from 0 to 2.
pub(crate) fn nth_audited(command: &Command, index: u8) -> Option<&str>
    ensures { IfSome result (λ name. IsReadFor (asked_of command.now) name.now) }
{
    match command {
        Command::Audit { names, .. } | Command::AuditBlocks(names) => match index {
            0 => Some(names.book.as_str()),
            1 => Some(names.replies.as_str()),
            2 => Some(names.new_book.as_str()),
            _ => None,
        },
        _ => None,
    }
}

/// The book that is read at this place, from 0 to 1.
pub(crate) fn nth_book(command: &Command, index: u8) -> Option<&str>
    ensures { IfSome result (λ name. IsBookFor (asked_of command.now) name.now) }
{
    match command {
        Command::Serial { names, .. }
        | Command::Run { names, .. }
        | Command::RunWithJournal { names, .. }
        | Command::Blocks { names, .. } => Some(names.book.as_str()),
        Command::Audit { names, .. } | Command::AuditBlocks(names) => match index {
            0 => Some(names.book.as_str()),
            _ => Some(names.new_book.as_str()),
        },
        _ => None,
    }
}

/// The file of bodies that is read at this place, from 0 to 1, and what it is to be.
pub(crate) fn nth_file(command: &Command, index: u8) -> Option<(&str, FileKind)>
    ensures { IfSome result (λ file. IsFileFor (asked_of command.now) file.0.now file.1) }
{
    match command {
        Command::Serial { names, .. } | Command::Run { names, .. } => {
            Some((names.batch.as_str(), FileKind::Batch))
        }
        Command::RunWithJournal { names, .. } => Some((names.batch.as_str(), FileKind::Batch)),
        Command::Blocks { names, .. } => Some((names.batch.as_str(), FileKind::Blocks)),
        Command::Audit { names, .. } => match index {
            0 => Some((names.batch.as_str(), FileKind::Batch)),
            _ => Some((names.replies.as_str(), FileKind::Replies)),
        },
        Command::AuditBlocks(names) => match index {
            0 => Some((names.batch.as_str(), FileKind::Blocks)),
            _ => Some((names.replies.as_str(), FileKind::BlockReplies)),
        },
        _ => None,
    }
}
