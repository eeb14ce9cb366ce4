ghost use Rattle.issuer_rows.specs.Fold.{Rows};
ghost use Rattle.serde_json.specs.Data.{Data};
ghost use Rattle.book_laws.specs.declared.book_version.BookVersion.{BookVersion};
ghost use Rattle.book_changes.specs.Migration.{KeepsAvailable, KeepsBackings};

/// What is available of all accounts of a book that is read from version 1 or 2 is what was available of all cards.
pub fn migration_keeps_what_is_available()
    ensures { (version : BookVersion) (top : Data) (rows : Rows) → KeepsAvailable version top rows }
{}

/// What is available of a card's own account, and what stays paid from it, are together what was available of the card and
/// what stayed paid from the card.
pub fn migration_keeps_what_backs_each_card()
    ensures { (version : BookVersion) (top : Data) (rows : Rows) → KeepsBackings version top rows }
{}
