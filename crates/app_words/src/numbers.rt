//! Numbers that words say.

ghost use Rattle.std.specs.Option.{SomeIff};
ghost use Rattle.app_words.specs.Numbers.{IsNumber, number_said};

/// The number that a word says in decimal digits, before which a plus may stand, if it says one below 2^32.
pub fn number_in(word: &str) -> Option<u32>
    ensures { SomeIff result (IsNumber word.now) (number_said word.now) }
{
    match word.parse::<u32>() {
        Ok(number) => Some(number),
        Err(_) => None,
    }
}
