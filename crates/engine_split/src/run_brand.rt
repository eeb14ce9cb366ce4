use std::marker::Brand;

/// Which batch a run decides, and which cursors it has. What comes out of a lock is known by its type alone, so both stand in the types
/// of all that must be of the same ones. No value of it is made.
pub trait RunBrand {
    ghost use Rattle.std.specs.Prelude.{List};
    ghost use Rattle.atomic_table.specs.Seated.{TableId};
    ghost use Rattle.issuer_words.specs.Words.{Frame, Rows};

    // The table of the cursors.
    ghost table: { TableId };
    // The book that the batch is decided on.
    ghost opening: { Rows };
    // The bodies of the batch.
    ghost frames: { List Frame };
}

// A run picks its batch and its cursors' table in its proof.
impl RunBrand for Brand {
    ghost use Rattle.std.specs.Prelude.{[]};
    ghost use Rattle.engine_split.specs.RunBrands.{no_table, no_rows};

    ghost table = { no_table };

    ghost opening = { no_rows };

    ghost frames = { [] };
}
