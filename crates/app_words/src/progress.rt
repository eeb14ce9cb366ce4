ghost use Rattle.std.specs.Prelude.{◌≡◌, ◌≢◌, ◌+◌, ◌++◌, ℕ, Some, IsTrue, codes, drop, map, slice_get, string_bytes, take};

use crate::words::place_of;

/// Takes a word `--progress` out of the words. Returns whether there is one.
pub fn take_progress(words: &mut Vec<String>) -> bool
    ensures taken { IsTrue result → (place : ℕ) × (slice_get (map string_bytes words.old.items) place ≡ Some (codes "--progress"))
        × (words.new.items ≡ take place words.old.items ++ drop (place + 1) words.old.items) }
    ensures none { ¬ IsTrue result → (words.new ≡ words.old)
        × ((place : ℕ) → slice_get (map string_bytes words.old.items) place ≢ Some (codes "--progress")) }
{
    match place_of(words, words.len(), "--progress") {
        Some(place) => {
            words.remove(place);
            true
        }
        None => false,
    }
}
