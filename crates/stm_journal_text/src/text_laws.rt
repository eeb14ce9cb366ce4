//! Laws of the texts.

ghost use Rattle.std.specs.Prelude.{◌≡◌, ℕ, List, ◌++◌};
ghost use Rattle.stm_journal_text.specs.Journal.{line_of, journal_text, IsEntry, AreEntries};
ghost use Rattle.stm_journal_text.specs.Texts.{key_text, IsKey};
ghost use Rattle.stm_journal_text.specs.declared.entry.Entry.{Entry};
ghost use Rattle.issuer_rows.specs.declared.row_key.RowKey.{RowKey};

/// No two journals have one text, so reading one is the inverse of writing it. No entry's line begins another's, and no
/// two keys have one text.
pub fn no_two_journals_have_one_text()
    ensures journals { (a b : List Entry) → AreEntries a → AreEntries b → journal_text a ≡ journal_text b → a ≡ b }
    ensures lines { (d e : Entry) (x y : List ℕ) → IsEntry d → IsEntry e
        → line_of d ++ x ≡ line_of e ++ y → (d ≡ e) × (x ≡ y) }
    ensures keys { (a b : RowKey) → IsKey a → IsKey b → key_text a ≡ key_text b → a ≡ b }
{}
