ghost use Rattle.std.specs.Prelude.{◌≤◌, IfSome, IfNone, OnSome, codes, length, map, string_bytes};
ghost use Rattle.std.specs.Option.{SomeIff};
ghost use Rattle.app_reports.specs.WhyAsked.{AsksMessage, AsksMessages, IsAskedBy, IsSearch, IsSoughtBy};
ghost use Rattle.app_words.specs.Numbers.{IsNumber, number_said};
ghost use Rattle.app_words.specs.Words.{IsCommand};

use crate::form_asked::form_in;
use crate::sought::Sought;
use app_words::{Form, asks_help, is_command, is_word, number_in};

/// What words ask of `why`.
#[derive(Clone, Copy)]
pub enum WhyAsked<'a> {
    /// Why, on the book of the first file, the message at this place of the batch in the second was answered so.
    Message(&'a str, &'a str, usize, Form),
    /// Which messages of the batch in this file are of a trace or of a card.
    Messages(&'a str, Sought<'a>, Form),
    /// What `why` takes.
    Help,
    /// Nothing: they begin with `why` and don't go on so.
    Wrong,
}

/// What the program's words, of which the first is its name, ask of `why`. `None` where they don't ask it.
pub fn why_asked(words: &[String]) -> Option<WhyAsked<'_>>
    ensures why { OnSome result (IsCommand (codes "why") (map string_bytes words.now)) }
    ensures asked { IfSome result (IsAskedBy (map string_bytes words.now)) }
    ensures none { IfNone result (¬ IsCommand (codes "why") (map string_bytes words.now)) }
{
    if is_command(words, "why") {
        Some(asked_behind(words))
    } else {
        None
    }
}

// What is asked by words of which the second is `why`.
fn asked_behind(words: &[String]) -> WhyAsked<'_>
    ensures { IsAskedBy (map string_bytes words.now) result }
{
    if let Some(asked) = message_asked(words) {
        return asked;
    }
    if let Some(asked) = messages_asked(words) {
        return asked;
    }
    if asks_help(words) {
        return WhyAsked::Help;
    }
    WhyAsked::Wrong
}

// The message that the words BOOK, BATCH and INDEX ask for, if they do.
fn message_asked(words: &[String]) -> Option<WhyAsked<'_>>
    ensures some { IfSome result (IsAskedBy (map string_bytes words.now)) }
    ensures none { IfNone result (¬ AsksMessage (map string_bytes words.now)) }
{
    let form = form_in(words, 5)?;
    let place = place_in(words[4].as_str())?;
    Some(WhyAsked::Message(words[2].as_str(), words[3].as_str(), place, form))
}

// The messages that the words BOOK, BATCH and `--trace TRACE` or `--card CARD` ask for, if they do.
fn messages_asked(words: &[String]) -> Option<WhyAsked<'_>>
    ensures some { IfSome result (IsAskedBy (map string_bytes words.now)) }
    ensures none { IfNone result (¬ AsksMessages (map string_bytes words.now)) }
{
    let form = form_in(words, 6)?;
    let sought = sought_by(words)?;
    Some(WhyAsked::Messages(words[3].as_str(), sought, form))
}

// What is sought by the words `--trace TRACE` or `--card CARD` behind two files, if they are that.
fn sought_by(words: &[String]) -> Option<Sought<'_>>
    requires { 6 ≤ length words.now }
    ensures some { IfSome result (IsSoughtBy (map string_bytes words.now)) }
    ensures none { IfNone result (¬ IsSearch (map string_bytes words.now)) }
{
    if is_word(words, 4, "--trace") {
        return Some(Sought::Trace(words[5].as_str()));
    }
    if is_word(words, 4, "--card") {
        return Some(Sought::Card(words[5].as_str()));
    }
    None
}

// The place that a word says, if it is one.
fn place_in(word: &str) -> Option<usize>
    ensures { SomeIff result (IsNumber word.now) (number_said word.now) }
{
    Some(number_in(word)? as usize)
}
