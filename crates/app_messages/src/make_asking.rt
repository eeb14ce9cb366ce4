ghost use Rattle.std.specs.Prelude.{IfSome, IfNone, OnSome, codes, map, string_bytes};
ghost use Rattle.app_messages.specs.MakeAsked.{IsAskedBy};
ghost use Rattle.app_words.specs.Words.{IsCommand};

use app_words::{asks_help, is_command};

/// What words ask of `make`.
#[derive(Clone, Copy)]
pub enum MakeAsked<'a> {
    /// A message of this type, with the elements that the words give.
    Message(&'a str, &'a [String]),
    /// What `make` takes.
    Help,
    /// Nothing: they begin with `make` and don't go on so.
    Wrong,
}

/// What the program's words, of which the first is its name, ask of `make`. `None` where they don't ask it.
pub fn make_asked(words: &[String]) -> Option<MakeAsked<'_>>
    ensures make { OnSome result (IsCommand (codes "make") (map string_bytes words.now)) }
    ensures asked { IfSome result (IsAskedBy (map string_bytes words.now)) }
    ensures none { IfNone result (¬ IsCommand (codes "make") (map string_bytes words.now)) }
{
    if is_command(words, "make") {
        Some(asked_behind(words))
    } else {
        None
    }
}

// What is asked by words of which the second is `make`.
fn asked_behind(words: &[String]) -> MakeAsked<'_>
    ensures { IsAskedBy (map string_bytes words.now) result }
{
    if asks_help(words) {
        return MakeAsked::Help;
    }
    if words.len() < 3 {
        return MakeAsked::Wrong;
    }
    MakeAsked::Message(words[2].as_str(), &words[3..])
}
