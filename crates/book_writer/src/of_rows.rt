use std::marker::Brand;

/// Which rows a text is of. What several threads share is known by its type alone, so the rows stand in the types of all that must be of
/// the same ones. No value of it is made.
pub trait OfRows {
    ghost use Rattle.std.specs.Prelude.{List};
    ghost use Rattle.issuer_words.specs.Words.{RowKey, RowVal};

    // The rows, sorted by their keys.
    ghost rows: { List (RowKey × RowVal) };
}

// Whoever has a text made picks its rows in the proof.
impl OfRows for Brand {
    ghost use Rattle.std.specs.Prelude.{[]};

    ghost rows = { [] };
}
