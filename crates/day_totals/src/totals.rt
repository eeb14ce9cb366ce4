//! Totals of a day, by name.

ghost use Rattle.std.specs.Prelude.{◌≡◌, ◌≤◌, ◌<◌, ◌+◌, ◌^◌, ◌||◌, if◌then◌else◌, ℕ, List, IfOk, IfSome, OnOk, length, map, is_some, unwrap_or, option_map, string_bytes};
ghost use Rattle.std.specs.BTreeMap.{IsOrdered, get_by_text};
ghost use Rattle.std.specs.String.{string_cmp};
ghost use Rattle.std.specs.Str.{bytes_eq};
ghost use Rattle.day_totals.specs.Day.{AreTallied, AreTotals, shown, under, is_under};

use crate::counted::Counted;
use crate::counting::counted_of;
use crate::exchange::Exchange;
use crate::figure::Figure;
use crate::total::Total;
use std::alloc::{AllocError, Global};
use std::collections::BTreeMap;

// Totals by their names, in the order of these.
type Tally = BTreeMap<String, u64>;

/// The totals of a figure over a day of at most 65,536 exchanges, in the order of their names. It fails only where memory runs out.
pub fn totals_of(alloc: Global, figure: Figure, day: &[Exchange]) -> Result<Vec<Total>, AllocError>
    requires { length day.now ≤ 65536 }
    ensures { IfOk result (λ totals. AreTotals figure day.now (shown totals.items)) }
{
    listed(alloc, tallied(alloc, figure, day)?)
}

// A figure's totals over a day.
fn tallied(alloc: Global, figure: Figure, day: &[Exchange]) -> Result<Tally, AllocError>
    requires { length day.now ≤ 65536 }
    ensures { IfOk result (AreTallied figure day.now) }
{
    let mut tally = BTreeMap::new(alloc);
    for index in 0..day.len() {
        let counted = counted_of(alloc, figure, &day[index])?;
        add(&mut tally, counted)?;
    }
    Ok(tally)
}

// The totals as a list.
fn listed(alloc: Global, tally: Tally) -> Result<Vec<Total>, AllocError>
    ensures items { IfOk result (λ totals. map (λ t. (t.name, t.sum)) totals.items ≡ tally.entries) }
    ensures order { IsOrdered string_cmp tally }
{
    let mut totals = Vec::new(alloc);
    for (name, sum) in tally {
        totals.push(Total { name, sum })?;
    }
    Ok(totals)
}

// Adds what an exchange adds, if anything.
fn add(tally: &mut Tally, counted: Option<Counted>) -> Result<(), AllocError>
    requires fits { (name : List ℕ) → unwrap_or (get_by_text tally.old name) 0 ≤ 2 ^ 63 }
    requires bound { IfSome counted (λ c. c.amount < 10 ^ 12) }
    ensures sums { OnOk result ((name : List ℕ) → unwrap_or (get_by_text tally.new name) 0 ≡ unwrap_or (get_by_text tally.old name) 0 + under name (option_map (λ c. (string_bytes c.name, c.amount)) counted)) }
    ensures names { OnOk result ((name : List ℕ) → is_some (get_by_text tally.new name) ≡ (is_some (get_by_text tally.old name) || is_under name (option_map (λ c. (string_bytes c.name, c.amount)) counted))) }
{
    match counted {
        Some(counted) => add_counted(tally, counted),
        None => Ok(()),
    }
}

// Adds an amount under a name.
fn add_counted(tally: &mut Tally, counted: Counted) -> Result<(), AllocError>
    requires fits { (name : List ℕ) → unwrap_or (get_by_text tally.old name) 0 ≤ 2 ^ 63 }
    requires bound { counted.amount < 10 ^ 12 }
    ensures sums { OnOk result ((name : List ℕ) → unwrap_or (get_by_text tally.new name) 0 ≡ unwrap_or (get_by_text tally.old name) 0 + (if bytes_eq name (string_bytes counted.name) then counted.amount else 0)) }
    ensures names { OnOk result ((name : List ℕ) → is_some (get_by_text tally.new name) ≡ (is_some (get_by_text tally.old name) || bytes_eq name (string_bytes counted.name))) }
{
    let Counted { name, amount } = counted;
    *tally.entry(name)?.or_insert(0) += amount;
    Ok(())
}
