ghost use Rattle.std.specs.Prelude.{◌≡◌, ◌+◌, ◌*◌, ◌^◌, ◌≤◌};
ghost use Rattle.std.proofs.Common.{rules};
ghost use Rattle.std.specs.Cmp.{partial_order_from_own_ties, partial_order_from_total};
ghost use Rattle.std.specs.Cmp.Rules.{comparing};
ghost use Rattle.std.specs.Map.Iter.{deref_pair};
ghost use Rattle.std.specs.Ordering.{as_partial_cmp};
ghost use Rattle.iso8583.specs.Class.{IsDigits};
ghost use Rattle.issuer_rows.specs.Rank.{IsOfDigits, digits_of, rank_of, row_cmp, row_eq, with_digits};

use crate::row_key::RowKey;
use crate::row_val::RowVal;
use std::cmp::Ordering;
use std::marker::Model;

/// A row with the rank of its key, a number that rises with the key: by it most rows are put in order without a look at their keys.
#[derive(Drop)]
pub(crate) struct RankedRow<'a> {
    rank: u64,
    key: &'a RowKey,
    val: &'a RowVal,
}

impl<'a> Model for RankedRow<'a> {
    ghost use Rattle.std.specs.Prelude.{◌≡◌};
    ghost use Rattle.issuer_rows.specs.Rank.{IsOfDigits, rank_of};
    ghost use Rattle.issuer_rows.specs.declared.row_key.RowKey.{RowKey};
    ghost use Rattle.issuer_rows.specs.declared.row_val.RowVal.{RowVal};

    ghost Value = { RowKey × RowVal };

    ghost view = { λ r. (r.key.now, r.val.now) };

    ghost invariant = { λ r. (r.rank ≡ rank_of r.key.now) × IsOfDigits r.key.now };
}

impl<'a> RankedRow<'a> {
    /// A row with its rank.
    pub(crate) fn new(row: (&'a RowKey, &'a RowVal)) -> RankedRow<'a>
        ensures { result ≡ deref_pair row.entry }
    {
        let (key, val) = row;
        RankedRow {
            rank: rank(key),
            key,
            val,
        }
    }

    /// The row.
    pub(crate) fn row(&self) -> (&'a RowKey, &'a RowVal)
        ensures { deref_pair result ≡ self.now }
    {
        (self.key, self.val)
    }
}

impl PartialEq for RankedRow<'_> {
    ghost eq = { row_eq };

    ghost laws = { Prim.search (comparing, rules) };

    #[tactic(auto, using(crate::proofs::KeyLaws::same_test))]
    fn eq(&self, other: &Self) -> bool {
        self.cmp(other).is_eq()
    }
}

impl Eq for RankedRow<'_> {
    ghost laws = { Prim.search (comparing, rules) };
}

impl Ord for RankedRow<'_> {
    ghost cmp = { row_cmp };

    ghost total = { Prim.search (comparing, rules) };

    ghost matches_partial_cmp = { Prim.search (comparing, rules) };

    ghost matches_eq = { Prim.search (comparing, rules) };

    #[inline(always)]
    fn cmp(&self, other: &Self) -> Ordering {
        self.rank
            .cmp(&other.rank)
            .then_with(|| self.key.cmp(other.key))
    }
}

impl PartialOrd for RankedRow<'_> {
    ghost partial_cmp = { as_partial_cmp row_cmp };

    ghost laws = { partial_order_from_own_ties (partial_order_from_total {R = row_cmp} (Prim.search (comparing, rules))) (Prim.search (comparing, rules)) };

    fn partial_cmp(&self, other: &Self) -> Option<Ordering> {
        Some(self.cmp(other))
    }
}

// The key's rank.
fn rank(key: &RowKey) -> u64
    ensures rank { result ≡ rank_of key.now }
    ensures digits { IsOfDigits key.now }
{
    match key {
        RowKey::Card(pan) => with_digits(0, pan.as_slice(), 17),
        RowKey::Velocity(pan, _) => with_digits(1, pan.as_slice(), 17),
        RowKey::Budget(prefix) => with_digits(2, prefix.as_slice(), 17),
        RowKey::Original(identity) => with_digits(
            with_digits(3, identity.acquirer.as_slice(), 11),
            identity.stan.as_slice(),
            6,
        ),
        RowKey::Account(_) => with_digits(4, b"", 17),
    }
}

// The number with so many further digits to the base 11: 1 to 10 for the first digits of a text, and 0 behind its end.
#[inline(always)]
fn with_digits(number: u64, text: &[u8], count: usize) -> u64
    requires digits { IsDigits text.now }
    requires fits { (number + 1) * 11 ^ count ≤ 2 ^ 64 }
    ensures value { result ≡ with_digits number (digits_of count text.now) }
    ensures bound { result + 1 ≤ (number + 1) * 11 ^ count }
{
    let mut number = number;
    for place in 0..count {
        let digit = match text.get(place) {
            Some(digit) => *digit - 47,
            None => 0,
        };
        number = number * 11 + u64::from(digit);
    }
    number
}
