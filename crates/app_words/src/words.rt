ghost use Rattle.std.specs.Prelude.{◌≡◌, ◌≢◌, ◌+◌, ◌≤◌, ℕ, Some, IfSome, IfNone, IsTrue, length, map, slice_get, string_bytes};
ghost use Rattle.app_words.specs.Words.{AsksHelp, IsCommand};

/// Whether the word at this place is that one.
pub fn is_word(words: &[String], place: usize, word: &str) -> bool
    ensures yes { IsTrue result → slice_get (map string_bytes words.now) place ≡ Some word.now }
    ensures no { ¬ IsTrue result → slice_get (map string_bytes words.now) place ≢ Some word.now }
{
    if place >= words.len() {
        return false;
    }
    words[place].as_str() == word
}

/// Where that word stands among the first so many.
pub(crate) fn place_of(words: &[String], count: usize, word: &str) -> Option<usize>
    requires { count ≤ length words.now }
    ensures some { IfSome result (λ place. slice_get (map string_bytes words.now) place ≡ Some word.now) }
    ensures none { IfNone result ((place : ℕ) → place + 1 ≤ count → slice_get (map string_bytes words.now) place ≢ Some word.now) }
{
    if count == 0 {
        return None;
    }
    if is_word(words, count - 1, word) {
        return Some(count - 1);
    }
    place_of(words, count - 1, word)
}

/// Whether the program's words, of which the first is its name, are of this command.
pub fn is_command(words: &[String], command: &str) -> bool
    ensures yes { IsTrue result → IsCommand command.now (map string_bytes words.now) }
    ensures no { ¬ IsTrue result → ¬ IsCommand command.now (map string_bytes words.now) }
{
    is_word(words, 1, command)
}

/// Whether one word behind the command's asks what it takes: `--help` or `-h`.
pub fn asks_help(words: &[String]) -> bool
    ensures yes { IsTrue result → AsksHelp (map string_bytes words.now) }
    ensures no { ¬ IsTrue result → ¬ AsksHelp (map string_bytes words.now) }
{
    words.len() == 3 && (is_word(words, 2, "--help") || is_word(words, 2, "-h"))
}
