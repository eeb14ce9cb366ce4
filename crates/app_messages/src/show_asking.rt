ghost use Rattle.std.specs.Prelude.{IfSome, IfNone, OnSome, IsTrue, codes, map, string_bytes};
ghost use Rattle.iso_shown.specs.declared.card_numbers.CardNumbers.TheVariants.{Masked, Full};
ghost use Rattle.app_messages.specs.ShowAsked.{AsksFile, AsksHelp, AsksJson, HasWord, IsAskedBy, IsFree};

use app_words::{is_command, is_word};
use iso_shown::CardNumbers;

/// What words ask of `show`, where they ask for JSON.
#[derive(Clone, Copy)]
pub enum ShowAsked<'a> {
    /// The lines of this file.
    File(&'a str, CardNumbers),
    /// What `show` takes for JSON.
    Help,
    /// Nothing: they have an option for JSON and are no such words.
    Wrong,
}

/// What the program's words, of which the first is its name, ask of `show` for JSON. `None` where they don't ask it: they are another
/// command's, or have no option for JSON among the first three words behind `show`.
pub fn show_asked(words: &[String]) -> Option<ShowAsked<'_>>
    ensures show { OnSome result (AsksJson (map string_bytes words.now)) }
    ensures asked { IfSome result (IsAskedBy (map string_bytes words.now)) }
    ensures none { IfNone result (¬ AsksJson (map string_bytes words.now)) }
{
    if asks_json(words) {
        Some(asked_behind(words))
    } else {
        None
    }
}

// Whether one of three words behind the command's is this one.
fn has_word(words: &[String], word: &str) -> bool
    ensures yes { IsTrue result → HasWord word.now (map string_bytes words.now) }
    ensures no { ¬ IsTrue result → ¬ HasWord word.now (map string_bytes words.now) }
{
    is_word(words, 2, word) || is_word(words, 3, word) || is_word(words, 4, word)
}

// Whether the words are of `show`, with an option for JSON.
fn asks_json(words: &[String]) -> bool
    ensures yes { IsTrue result → AsksJson (map string_bytes words.now) }
    ensures no { ¬ IsTrue result → ¬ AsksJson (map string_bytes words.now) }
{
    is_command(words, "show") && (has_word(words, "--json") || has_word(words, "--full-pan"))
}

// Whether they ask what `show` takes for JSON.
fn asks_help(words: &[String]) -> bool
    ensures yes { IsTrue result → AsksHelp (map string_bytes words.now) }
{
    words.len() == 4
        && has_word(words, "--json")
        && (has_word(words, "--help") || has_word(words, "-h"))
}

// Whether the word at this place is no option.
fn is_free(words: &[String], place: usize) -> bool
    ensures yes { IsTrue result → IsFree (map string_bytes words.now) place }
    ensures no { ¬ IsTrue result → ¬ IsFree (map string_bytes words.now) place }
{
    !is_word(words, place, "--json") && !is_word(words, place, "--full-pan")
}

// Whether they ask for the file that is named at this place.
fn asks_masked(words: &[String], place: usize) -> bool
    ensures yes { IsTrue result → AsksFile (map string_bytes words.now) place Masked }
    ensures no { ¬ IsTrue result → ¬ AsksFile (map string_bytes words.now) place Masked }
{
    words.len() == 4 && has_word(words, "--json") && is_free(words, place)
}

// The same with card numbers in full.
fn asks_full(words: &[String], place: usize) -> bool
    ensures yes { IsTrue result → AsksFile (map string_bytes words.now) place Full }
    ensures no { ¬ IsTrue result → ¬ AsksFile (map string_bytes words.now) place Full }
{
    words.len() == 5
        && has_word(words, "--json")
        && has_word(words, "--full-pan")
        && is_free(words, place)
}

// What is asked by words of `show` with an option for JSON.
fn asked_behind(words: &[String]) -> ShowAsked<'_>
    ensures { IsAskedBy (map string_bytes words.now) result }
{
    if asks_help(words) {
        return ShowAsked::Help;
    }
    if asks_masked(words, 2) {
        return ShowAsked::File(words[2].as_str(), CardNumbers::Masked);
    }
    if asks_masked(words, 3) {
        return ShowAsked::File(words[3].as_str(), CardNumbers::Masked);
    }
    if asks_full(words, 2) {
        return ShowAsked::File(words[2].as_str(), CardNumbers::Full);
    }
    if asks_full(words, 3) {
        return ShowAsked::File(words[3].as_str(), CardNumbers::Full);
    }
    if asks_full(words, 4) {
        return ShowAsked::File(words[4].as_str(), CardNumbers::Full);
    }
    ShowAsked::Wrong
}
