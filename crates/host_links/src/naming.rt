use std::marker::Brand;

/// Which history it is. Each call of a program picks it.
pub trait Naming {
    ghost use Rattle.logbook.specs.Pages.{Book};

    ghost book: { Book };
}

/// How a host was before the first turn of the history.
pub trait Before<G>: Naming {
    ghost use Rattle.std.specs.Prelude.{Option};
    ghost use Rattle.issuer_rows.specs.Fold.{Rows};
    ghost use Rattle.log_file.specs.declared.log_writer.LogWriter.{LogWriter};
    ghost use Rattle.host_serving.specs.declared.tally.Tally.{Tally};

    // The book.
    ghost opening: { Rows };
    // What was counted.
    ghost tally: { Tally };
    // The log.
    ghost log: { Option (LogWriter G) };
}

impl Naming for Brand {
    ghost book = { record { number = 0; log_name = 0; cells_name = 0 } };
}

impl<G> Before<G> for Brand {
    ghost use Rattle.std.specs.Prelude.{None};
    ghost use Rattle.std.specs.FinMap.{empty};

    ghost opening = { empty };

    ghost tally = { record { bodies = 0; unreadable = 0 } };

    ghost log = { None };
}
