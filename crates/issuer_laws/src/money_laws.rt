ghost use Rattle.std.specs.Prelude.{List};
ghost use Rattle.issuer_words.specs.Words.{AccountId, Advice, Frame, Request, Reversal, Rows, rows_after, rows_after_one};
ghost use Rattle.issuer_laws.specs.Conserved.{KeepsAccounts, KeepsPrefixes};
ghost use Rattle.issuer_laws.specs.Reconciled.{IsReconciled};
ghost use Rattle.issuer_laws.specs.Undone.{RequestIsUndone, RequestIsReversed, AdviceIsUndone, AdviceIsReversed};

/// Money is neither made nor lost: whatever a body is and however it is decided, what is available of an account and what stays paid from
/// it are as much together as before. The same holds of the budget of a prefix, and after a batch.
pub fn every_decision_keeps_backing()
    ensures account { (rows : Rows) (frame : Frame) → KeepsAccounts rows (rows_after_one rows frame) }
    ensures prefix { (rows : Rows) (frame : Frame) → KeepsPrefixes rows (rows_after_one rows frame) }
    ensures account_of_batch { (rows : Rows) (frames : List Frame) → KeepsAccounts rows (rows_after rows frames) }
    ensures prefix_of_batch { (rows : Rows) (frames : List Frame) → KeepsPrefixes rows (rows_after rows frames) }
{}

/// A request answered 000 or an advice answered 901, and right after it a full reversal that names it. Where the reversal
/// is answered 400, each account, each budget and what was spent on each day are as before the original. It is answered
/// 400 where no balance was over 10^15 before.
pub fn a_full_reversal_undoes_its_original()
    ensures request { (rows : Rows) (r : Request) (v : Reversal) → RequestIsUndone rows r v }
    ensures request_reversed { (rows : Rows) (r : Request) (v : Reversal) → RequestIsReversed rows r v }
    ensures advice { (rows : Rows) (a : Advice) (v : Reversal) → AdviceIsUndone rows a v }
    ensures advice_reversed { (rows : Rows) (a : Advice) (v : Reversal) → AdviceIsReversed rows a v }
{}

/// What an account has less behind a batch is the sum of the amounts that were first answered 000 or 901 and paid from it, less what
/// reversals that were answered 400 gave back to it.
pub fn totals_of_replies_reconcile()
    ensures { (rows : Rows) (frames : List Frame) (id : AccountId) → IsReconciled rows frames id }
{}
