ghost use Rattle.std.specs.Prelude.{IfSome, IfNone, OnSome, codes, map, string_bytes};
ghost use Rattle.app_reports.specs.ReportAsked.{IsAskedBy};
ghost use Rattle.app_words.specs.Words.{IsCommand};

use app_words::{asks_help, is_command, is_word};

/// What words ask of `report`.
#[derive(Clone, Copy)]
pub enum ReportAsked<'a> {
    /// How the day went that is the batch of the first file, with the replies in the second.
    Day(&'a str, &'a str),
    /// The same, and a page of it in the third file.
    Page(&'a str, &'a str, &'a str),
    /// What `report` takes.
    Help,
    /// Nothing: they begin with `report` and don't go on so.
    Wrong,
}

/// What the program's words, of which the first is its name, ask of `report`. `None` where they don't ask it.
pub fn report_asked(words: &[String]) -> Option<ReportAsked<'_>>
    ensures report { OnSome result (IsCommand (codes "report") (map string_bytes words.now)) }
    ensures asked { IfSome result (IsAskedBy (map string_bytes words.now)) }
    ensures none { IfNone result (¬ IsCommand (codes "report") (map string_bytes words.now)) }
{
    if is_command(words, "report") {
        Some(asked_behind(words))
    } else {
        None
    }
}

// What is asked by words of which the second is `report`.
fn asked_behind(words: &[String]) -> ReportAsked<'_>
    ensures { IsAskedBy (map string_bytes words.now) result }
{
    if words.len() == 4 {
        return ReportAsked::Day(words[2].as_str(), words[3].as_str());
    }
    if words.len() == 6 && is_word(words, 4, "--html") {
        return ReportAsked::Page(words[2].as_str(), words[3].as_str(), words[5].as_str());
    }
    if asks_help(words) {
        return ReportAsked::Help;
    }
    ReportAsked::Wrong
}
