ghost use Rattle.std.specs.Prelude.{IfSome, IfNone, map, string_bytes};
ghost use Rattle.app_words.specs.Words.{AsksTopic};

use crate::topic_text::{EXAMPLE, FAULTS, FORMATS, RULES};
use crate::words::{is_command, is_word};

/// What `switch help` tells of, besides the commands.
#[derive(Clone, Copy, Debug, PartialEq, Eq)]
pub enum Topic {
    /// The files: batches, replies, blocks, logs, books.
    Formats,
    /// In which order conditions are asked, and what is answered.
    Rules,
    /// What is wrong with a body that is no message.
    Faults,
    /// The commands of a day.
    Example,
}

impl Topic {
    /// What is told of it, for people.
    pub fn text(self) -> &'static str {
        match self {
            Topic::Formats => FORMATS,
            Topic::Rules => RULES,
            Topic::Faults => FAULTS,
            Topic::Example => EXAMPLE,
        }
    }
}

/// The topic that the words `help TOPIC` ask for. `None` where they don't ask for one.
pub fn topic_asked(words: &[String]) -> Option<Topic>
    ensures asked { IfSome result (AsksTopic (map string_bytes words.now)) }
    ensures none { IfNone result ((topic : Topic) → ¬ AsksTopic (map string_bytes words.now) topic) }
{
    if words.len() != 3 || !is_command(words, "help") {
        return None;
    }
    if is_word(words, 2, "formats") {
        return Some(Topic::Formats);
    }
    if is_word(words, 2, "rules") {
        return Some(Topic::Rules);
    }
    if is_word(words, 2, "faults") {
        return Some(Topic::Faults);
    }
    if is_word(words, 2, "example") {
        return Some(Topic::Example);
    }
    None
}
