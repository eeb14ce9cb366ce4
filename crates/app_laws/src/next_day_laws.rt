ghost use Rattle.std.specs.Prelude.{List, Result};
ghost use Rattle.issuer_words.specs.Words.{Frame, Rows};
ghost use Rattle.book_laws.specs.declared.json_fault.JsonFault.{JsonFault};
ghost use Rattle.app_laws.specs.NextDay.{ReadsTodaysBook, AreOneRun};

/// Tomorrow's run reads the new book of today's run, with which nothing is wrong, unless memory runs out.
pub fn tomorrow_reads_todays_book()
    ensures { (rows : Rows) (frames : List Frame) (answer : Result Rows JsonFault) → ReadsTodaysBook rows frames answer }
{}

/// Two runs, of which the second reads the new book of the first, give the replies and the book of one run over both batches.
pub fn two_runs_are_one()
    ensures { (rows : Rows) (today : List Frame) (tomorrow : List Frame) (opening : Rows) → AreOneRun rows today tomorrow opening }
{}
