ghost use Rattle.std.specs.Prelude.{IfSome, IfNone, OnSome, codes, map, string_bytes};
ghost use Rattle.app_words.specs.Words.{IsCommand};
ghost use Rattle.log_commands.specs.Asked.{IsAskedBy};

use crate::log_names::LogNames;
use app_words::{asks_help, is_command};

/// What words ask of a log.
#[derive(Clone, Copy)]
pub enum LogAsked<'a> {
    /// To do the command with these files.
    Files(LogNames<'a>),
    /// What the command takes.
    Help,
    /// Nothing: they begin with the command and don't go on so.
    Wrong,
}

/// What the program's words, of which the first is its name, ask of `replay`. `None` where they don't ask it.
pub fn replay_asked(words: &[String]) -> Option<LogAsked<'_>>
    ensures replay { OnSome result (IsCommand (codes "replay") (map string_bytes words.now)) }
    ensures asked { IfSome result (IsAskedBy (map string_bytes words.now)) }
    ensures none { IfNone result (¬ IsCommand (codes "replay") (map string_bytes words.now)) }
{
    if is_command(words, "replay") {
        Some(asked_behind(words))
    } else {
        None
    }
}

/// What the program's words, of which the first is its name, ask of `audit-log`. `None` where they don't ask it.
pub fn audit_log_asked(words: &[String]) -> Option<LogAsked<'_>>
    ensures audit { OnSome result (IsCommand (codes "audit-log") (map string_bytes words.now)) }
    ensures asked { IfSome result (IsAskedBy (map string_bytes words.now)) }
    ensures none { IfNone result (¬ IsCommand (codes "audit-log") (map string_bytes words.now)) }
{
    if is_command(words, "audit-log") {
        Some(asked_behind(words))
    } else {
        None
    }
}

// What is asked by words of which the second is the command.
fn asked_behind(words: &[String]) -> LogAsked<'_>
    ensures { IsAskedBy (map string_bytes words.now) result }
{
    if words.len() == 6 {
        return LogAsked::Files(LogNames {
            book: words[2].as_str(),
            log: words[3].as_str(),
            replies: words[4].as_str(),
            new_book: words[5].as_str(),
        });
    }
    if asks_help(words) {
        return LogAsked::Help;
    }
    LogAsked::Wrong
}
