ghost use Rattle.std.specs.Prelude.{◌≡◌, ℕ, List};
ghost use Rattle.issuer_words.specs.Words.{Frame, Rows};
ghost use Rattle.stm_journal.specs.Drives.{IsDrive};
ghost use Rattle.stm_journal_text.specs.declared.entry.Entry.{Entry};
ghost use Rattle.stm_core_laws.specs.Play.{Play};

/// From one book and one list of bodies a list of turns makes one list of entries, and comes to one core.
pub fn drives_are_determined()
    ensures { (opening : Rows) (frames : List Frame) (turns : List ℕ) (entries others : List Entry) (core other : Play) → IsDrive opening frames turns entries core → IsDrive opening frames turns others other → (entries ≡ others) × (core ≡ other) }
{}
