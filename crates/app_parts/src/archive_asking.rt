ghost use Rattle.std.specs.Prelude.{IfSome, IfNone, OnSome, codes, map, string_bytes};
ghost use Rattle.app_parts.specs.ArchiveAsked.{IsAskedBy};
ghost use Rattle.app_words.specs.Words.{IsCommand};

use crate::archive_names::ArchiveNames;
use app_words::{asks_help, is_command};
use iso8583::Day;

/// What words ask of `archive`.
#[derive(Clone, Copy)]
pub enum ArchiveAsked<'a> {
    /// To archive the book of these files by this date.
    Book(ArchiveNames<'a>, Day),
    /// What `archive` takes.
    Help,
    /// Nothing: they begin with `archive` and don't go on so.
    Wrong,
}

/// What the program's words, of which the first is its name, ask of `archive`. `None` where they don't ask it.
pub fn archive_asked(words: &[String]) -> Option<ArchiveAsked<'_>>
    ensures archive { OnSome result (IsCommand (codes "archive") (map string_bytes words.now)) }
    ensures asked { IfSome result (IsAskedBy (map string_bytes words.now)) }
    ensures none { IfNone result (¬ IsCommand (codes "archive") (map string_bytes words.now)) }
{
    if is_command(words, "archive") {
        Some(asked_behind(words))
    } else {
        None
    }
}

// What is asked by words of which the second is `archive`.
fn asked_behind(words: &[String]) -> ArchiveAsked<'_>
    ensures { IsAskedBy (map string_bytes words.now) result }
{
    if asks_help(words) {
        return ArchiveAsked::Help;
    }
    if words.len() != 6 {
        return ArchiveAsked::Wrong;
    }
    let names = ArchiveNames {
        book: words[2].as_str(),
        new_book: words[4].as_str(),
        old: words[5].as_str(),
    };
    match Day::new(words[3].as_bytes()) {
        Some(date) => ArchiveAsked::Book(names, date),
        None => ArchiveAsked::Wrong,
    }
}
