ghost use Rattle.std.specs.Prelude.{◌≡◌, ◌<◌, ◌+◌, ℕ, IfSome, IfNone, OnSome, codes, length, map, string_bytes};
ghost use Rattle.app_messages.specs.UnpackAsked.{IsAskedBy, SaysBlock};
ghost use Rattle.app_words.specs.Words.{IsCommand};

use app_words::{asks_help, is_command, is_word, number_in};

/// What words ask of `unpack`.
#[derive(Clone, Copy)]
pub enum UnpackAsked<'a> {
    /// The bodies of the batch in this file.
    Batch(&'a str),
    /// The bodies of the block of this number, from 0 on, of the blocks in this file.
    Block(&'a str, usize),
    /// What `unpack` takes.
    Help,
    /// Nothing: they begin with `unpack` and don't go on so.
    Wrong,
}

/// What the program's words, of which the first is its name, ask of `unpack`. `None` where they don't ask it.
pub fn unpack_asked(words: &[String]) -> Option<UnpackAsked<'_>>
    ensures unpack { OnSome result (IsCommand (codes "unpack") (map string_bytes words.now)) }
    ensures asked { IfSome result (IsAskedBy (map string_bytes words.now)) }
    ensures none { IfNone result (¬ IsCommand (codes "unpack") (map string_bytes words.now)) }
{
    if is_command(words, "unpack") {
        Some(asked_behind(words))
    } else {
        None
    }
}

// What is asked by words of which the second is `unpack`.
fn asked_behind(words: &[String]) -> UnpackAsked<'_>
    ensures { IsAskedBy (map string_bytes words.now) result }
{
    if asks_help(words) {
        return UnpackAsked::Help;
    }
    match words.len() {
        3 => UnpackAsked::Batch(words[2].as_str()),
        5 => block_asked(words),
        _ => UnpackAsked::Wrong,
    }
}

// What is asked by five such words: `--block N FILE` or `FILE --block N`, or nothing.
fn block_asked(words: &[String]) -> UnpackAsked<'_>
    requires { length words.now ≡ 5 }
    ensures { IsAskedBy (map string_bytes words.now) result }
{
    if let Some(number) = number_behind(words, 2) {
        return UnpackAsked::Block(words[4].as_str(), number);
    }
    if let Some(number) = number_behind(words, 3) {
        return UnpackAsked::Block(words[2].as_str(), number);
    }
    UnpackAsked::Wrong
}

// The number of a block that stands behind the word at this place, if that is `--block`.
fn number_behind(words: &[String], place: usize) -> Option<usize>
    requires { place + 1 < length words.now }
    ensures some { IfSome result (SaysBlock (map string_bytes words.now) place) }
    ensures none { IfNone result ((number : ℕ) → ¬ SaysBlock (map string_bytes words.now) place number) }
{
    if !is_word(words, place, "--block") {
        return None;
    }
    Some(number_in(words[place + 1].as_str())? as usize)
}
