ghost use Rattle.std.specs.Prelude.{◌≡◌, ◌&&◌, [], ◌∷◌};
ghost use Rattle.issuer_laws.specs.Rules.{first_of, is_mark, is_own_mark, is_same_kept};

use iso8583::{OriginalKind, Transaction};
use issuer_laws::DecisionRule;
use issuer_rows::OriginalRow;
use issuer_rules::{is_marked, is_of_same};

// The rule of a request or an advice of whose identity something is known.
pub(crate) fn rule_of_seen(
    seen: &OriginalRow,
    transaction: &Transaction,
    kind: OriginalKind,
    repeat: bool,
) -> DecisionRule
    ensures { result ≡ first_of ((DecisionRule.ReversedAhead, is_own_mark transaction.now kind seen.now)
        ∷ (DecisionRule.MarkOfAnother, is_mark seen.now)
        ∷ (DecisionRule.Repeat, is_same_kept transaction.now kind seen.now && repeat)
        ∷ []) DecisionRule.Duplicate }
{
    match seen {
        OriginalRow::Ahead(mark) if is_marked(mark, transaction, kind) => {
            DecisionRule::ReversedAhead
        }
        OriginalRow::Ahead(_) => DecisionRule::MarkOfAnother,
        OriginalRow::Kept(kept) if is_of_same(kept, transaction, kind) && repeat => {
            DecisionRule::Repeat
        }
        OriginalRow::Kept(_) => DecisionRule::Duplicate,
    }
}
