ghost use Rattle.std.specs.Prelude.{◌≡◌, ℕ, List};
ghost use Rattle.issuer_words.specs.Words.{Frame, Rows};
ghost use Rattle.stm_core_laws.specs.Words.{IsReached, Play, opening_play};
ghost use Rattle.stm_core_laws.specs.declared.limits.Limits.{Limits};
ghost use Rattle.stm_journal_text.specs.declared.entry.Entry.{Entry};
ghost use Rattle.stm_journal_text.specs.Logged.{IsFirstUnlogged};
ghost use Rattle.stm_journal_text.specs.Plays.{Plays};

/// A journal plays to one core, whose state is a state of a run: what it has committed is the fold.
pub fn plays_are_determined()
    ensures one { (opening : Rows) (frames : List Frame) (limits : Limits) (entries : List Entry) (core other : Play) → Plays (opening_play opening frames limits) entries core → Plays (opening_play opening frames limits) entries other → core ≡ other }
    ensures reached { (opening : Rows) (frames : List Frame) (limits : Limits) (entries : List Entry) (core : Play) → Plays (opening_play opening frames limits) entries core → IsReached core.state }
{}

/// Where a journal plays, each of its entries is decided: no finish asks for a row that its version didn't log.
pub fn played_entries_are_decided()
    ensures { (opening : Rows) (frames : List Frame) (limits : Limits) (entries : List Entry) (core : Play) → Plays (opening_play opening frames limits) entries core → (n : ℕ) → ¬ IsFirstUnlogged (opening_play opening frames limits) entries n }
{}
