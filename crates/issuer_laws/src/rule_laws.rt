ghost use Rattle.issuer_words.specs.Words.{Frame, Request, Rows};
ghost use Rattle.issuer_laws.specs.Rules.{IsApprovedWherePaid, IsDecidedBy, decided_by};

/// A body is answered, and rows are written, as the first rule says of the flat list of its kind whose condition holds: that list and the
/// table in stages are one. A body that is no message is answered its fault, and writes nothing. A request is answered 000 exactly where
/// its rule is that the budget or the account pays; only a repeat is answered what was answered first.
pub fn the_first_rule_decides()
    ensures decided { (rows : Rows) (frame : Frame) → IsDecidedBy rows frame (decided_by rows frame) }
    ensures approved { (rows : Rows) (r : Request) → IsApprovedWherePaid rows r }
{}
