ghost use Rattle.std.specs.Prelude.{◌⊎◌, IfSome, IfNone, SomeIff, codes, map, string_bytes};
ghost use Rattle.app_parts.specs.Asked.{IsAskedBy, IsMost};
ghost use Rattle.app_words.specs.Numbers.{IsNumber, number_said};
ghost use Rattle.app_words.specs.Words.{IsCommand};

use crate::help::{DECIDE_HELP, DECIDE_USAGE, JOIN_HELP, JOIN_USAGE, PART_HELP, PART_USAGE};
use app_parts_folder::{JoinNames, MostParts, PartNames};
use app_words::{asks_help, is_command, number_in};

/// What words ask of `part`, `decide` and `join`.
#[derive(Clone, Copy)]
pub enum PartsAsked<'a> {
    /// To put the batch of these files in at most so many parts.
    Part(PartNames<'a>, MostParts),
    /// To decide the part of this number, of this folder.
    Decide(&'a str, u32),
    /// To put the parts of a folder together.
    Join(JoinNames<'a>),
    /// What one of them takes: this text.
    Help(&'static str),
    /// Nothing: they begin with one of them, and don't go on so; this is how it is called.
    Wrong(&'static str),
}

/// What the program's words, of which the first is its name, ask of parts. `None` where they don't ask it.
pub fn parts_asked(words: &[String]) -> Option<PartsAsked<'_>>
    ensures asked { IfSome result (IsAskedBy (map string_bytes words.now)) }
    ensures none { IfNone result (¬ (IsCommand (codes "part") (map string_bytes words.now)
        ⊎ (IsCommand (codes "decide") (map string_bytes words.now) ⊎ IsCommand (codes "join") (map string_bytes words.now)))) }
{
    if is_command(words, "part") {
        Some(part_asked(words))
    } else if is_command(words, "decide") {
        Some(decide_asked(words))
    } else if is_command(words, "join") {
        Some(join_asked(words))
    } else {
        None
    }
}

// What is asked by words of which the second is `part`.
fn part_asked(words: &[String]) -> PartsAsked<'_>
    requires { IsCommand (codes "part") (map string_bytes words.now) }
    ensures { IsAskedBy (map string_bytes words.now) result }
{
    if asks_help(words) {
        return PartsAsked::Help(PART_HELP);
    }
    if words.len() != 6 {
        return PartsAsked::Wrong(PART_USAGE);
    }
    let names = PartNames {
        book: words[2].as_str(),
        batch: words[3].as_str(),
        folder: words[5].as_str(),
    };
    match most_of(words[4].as_str()) {
        Some(most) => PartsAsked::Part(names, most),
        None => PartsAsked::Wrong(PART_USAGE),
    }
}

// What is asked by words of which the second is `decide`.
fn decide_asked(words: &[String]) -> PartsAsked<'_>
    requires { IsCommand (codes "decide") (map string_bytes words.now) }
    ensures { IsAskedBy (map string_bytes words.now) result }
{
    if asks_help(words) {
        return PartsAsked::Help(DECIDE_HELP);
    }
    if words.len() != 4 {
        return PartsAsked::Wrong(DECIDE_USAGE);
    }
    match number_in(words[3].as_str()) {
        Some(part) => PartsAsked::Decide(words[2].as_str(), part),
        None => PartsAsked::Wrong(DECIDE_USAGE),
    }
}

// What is asked by words of which the second is `join`.
fn join_asked(words: &[String]) -> PartsAsked<'_>
    requires { IsCommand (codes "join") (map string_bytes words.now) }
    ensures { IsAskedBy (map string_bytes words.now) result }
{
    if asks_help(words) {
        return PartsAsked::Help(JOIN_HELP);
    }
    if words.len() != 5 {
        return PartsAsked::Wrong(JOIN_USAGE);
    }
    PartsAsked::Join(JoinNames {
        folder: words[2].as_str(),
        replies: words[3].as_str(),
        new_book: words[4].as_str(),
    })
}

// How many parts this word asks for at most.
fn most_of(word: &str) -> Option<MostParts>
    ensures { SomeIff result (IsNumber word.now × IsMost (number_said word.now)) (number_said word.now) }
{
    match number_in(word) {
        Some(number) => MostParts::new(number),
        None => None,
    }
}
