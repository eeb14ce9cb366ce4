ghost use Rattle.std.specs.Prelude.{◌≡◌, ℕ, ◌∷◌, ◌++◌};
ghost use Rattle.std.proofs.Common.{rules, ap};
ghost use Rattle.std.specs.Cmp.{partial_order_from_own_ties};
ghost use Rattle.std.specs.Cmp.Rules.{comparing, hashing};
ghost use Rattle.std.specs.Hash as fed;
ghost use Rattle.std.specs.Ordering.{as_partial_cmp};
ghost use Rattle.issuer_rows.specs.RowKey.{key_cmp, key_eq, fed_texts, kind_of};
ghost use Rattle.issuer_rows.specs.SameKey.{key_eq_decides};

use iso8583::{AccountId, Day, Identity, Pan, PanPrefix};
use std::cmp::Ordering;
use std::hash::{Hash, Hasher};

/// The key of a row of the book: its kind, and what names it.
#[derive(Clone, Copy)]
pub enum RowKey {
    /// The card with this number.
    Card(Pan),
    /// What was spent with the card on this day.
    Velocity(Pan, Day),
    /// The stand-in budget of the cards whose numbers begin so.
    Budget(PanPrefix),
    /// The request or advice of this identity.
    Original(Identity),
    /// The account of this name.
    Account(AccountId),
}

impl RowKey {
    /// The place of the key's kind among the five, by which keys are ordered first.
    #[inline(always)]
    pub fn kind(&self) -> u8
        ensures { result ≡ kind_of self.now }
    {
        match self {
            RowKey::Card(_) => 0,
            RowKey::Velocity(_, _) => 1,
            RowKey::Budget(_) => 2,
            RowKey::Original(_) => 3,
            RowKey::Account(_) => 4,
        }
    }
}

impl PartialEq for RowKey {
    ghost eq = { key_eq };

    ghost laws = { Prim.search (comparing, rules) };

    #[inline(always)]
    #[tactic(auto, using(crate::proofs::KeyLaws::same_test))]
    fn eq(&self, other: &RowKey) -> bool {
        self.cmp(other).is_eq()
    }
}

impl Eq for RowKey {
    ghost laws = { Prim.search (comparing, rules) };
}

impl Hash for RowKey {
    ghost hash_input = { fed_texts };

    ghost respects_eq = { λ a b same. ap fed_texts ((key_eq_decides a b).0 same) };

    fn hash<H: Hasher>(&self, state: &mut H) {
        match self {
            RowKey::Card(pan) => state.write(pan.as_slice()),
            RowKey::Velocity(pan, day) => {
                state.write(pan.as_slice());
                state.write(day.as_slice());
            }
            RowKey::Budget(prefix) => state.write(prefix.as_slice()),
            RowKey::Original(identity) => {
                state.write(identity.acquirer.as_slice());
                state.write(identity.stan.as_slice());
                state.write(identity.stamp.as_slice());
            }
            RowKey::Account(id) => state.write(id.as_slice()),
        }
    }
}

/// By kind, in the order Card, Velocity, Budget, Original, Account; inside a kind by the bytes of what names the row.
impl Ord for RowKey {
    ghost cmp = { key_cmp };

    ghost total = { Prim.search (comparing, rules) };

    ghost matches_partial_cmp = { Prim.search (comparing, rules) };

    ghost matches_eq = { Prim.search (comparing, rules) };

    #[inline(always)]
    #[tactic(auto, using(crate::proofs::KeyLaws::then_nothing))]
    fn cmp(&self, other: &RowKey) -> Ordering {
        match (self, other) {
            (RowKey::Card(mine), RowKey::Card(theirs)) => mine.cmp(theirs),
            (RowKey::Velocity(mine, day), RowKey::Velocity(theirs, other_day)) => {
                mine.cmp(theirs).then_with(|| day.cmp(other_day))
            }
            (RowKey::Budget(mine), RowKey::Budget(theirs)) => mine.cmp(theirs),
            (RowKey::Original(mine), RowKey::Original(theirs)) => mine
                .acquirer
                .cmp(&theirs.acquirer)
                .then_with(|| mine.stan.cmp(&theirs.stan))
                .then_with(|| mine.stamp.cmp(&theirs.stamp)),
            (RowKey::Account(mine), RowKey::Account(theirs)) => mine.cmp(theirs),
            _ => self.kind().cmp(&other.kind()),
        }
    }
}

impl PartialOrd for RowKey {
    ghost partial_cmp = { as_partial_cmp key_cmp };

    ghost laws = { partial_order_from_own_ties (Prim.search (comparing, rules)) (Prim.search (comparing, rules)) };

    fn partial_cmp(&self, other: &RowKey) -> Option<Ordering> {
        Some(self.cmp(other))
    }
}
