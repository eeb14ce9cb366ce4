ghost use Rattle.std.specs.Prelude.{ℕ, List};
ghost use Rattle.day_totals.specs.Escaped.{IsPlain, IsReadAs, escaped};

/// What escaping means to whoever reads the page, as laws.
pub fn texts_are_escaped()
    // No markup begins or ends in an escaped text.
    ensures plain { (text : List ℕ) → IsPlain (escaped text) }
    // It is read as the text.
    ensures read { (text : List ℕ) → IsReadAs (escaped text) text }
{}
