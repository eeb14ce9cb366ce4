ghost use Rattle.std.specs.Prelude.{◌≡◌, ◌+◌, ◌≤◌, ◌<◌, ℕ, IfSome, IfNone, OnSome, IsTrue, length, map, string_bytes};
ghost use Rattle.app_reports.specs.FormAsked.{SaysForm, SaysFull};
ghost use Rattle.app_words.specs.declared.form.Form.{Form as Told};

use app_words::{Form, is_word};
use iso_shown::CardNumbers;

// Whether the two words from this place on ask for card numbers in full.
fn says_full(words: &[String], place: usize) -> bool
    requires { place + 1 < length words.now }
    ensures yes { IsTrue result → SaysFull (map string_bytes words.now) place }
    ensures no { ¬ IsTrue result → ¬ SaysFull (map string_bytes words.now) place }
{
    (is_word(words, place, "--json") && is_word(words, place + 1, "--full-pan"))
        || (is_word(words, place, "--full-pan") && is_word(words, place + 1, "--json"))
}

/// How it is to be told, by the words from this place on, if they say it.
pub(crate) fn form_in(words: &[String], place: usize) -> Option<Form>
    requires { place < 16 }
    ensures some { IfSome result (SaysForm (map string_bytes words.now) place) }
    ensures room { OnSome result (place ≤ length words.now) }
    ensures none { IfNone result ((form : Told) → ¬ SaysForm (map string_bytes words.now) place form) }
{
    if words.len() == place {
        return Some(Form::Lines);
    }
    if words.len() == place + 1 && is_word(words, place, "--json") {
        return Some(Form::Json(CardNumbers::Masked));
    }
    if words.len() == place + 2 && says_full(words, place) {
        return Some(Form::Json(CardNumbers::Full));
    }
    None
}
