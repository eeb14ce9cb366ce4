ghost use Rattle.std.specs.Prelude.{◌≡◌, ◌++◌, IfOk, OnOk};
ghost use Rattle.day_totals.specs.Lines.{action_line, action_lines, line, lines, lines_of, type_lines, money_lines, request_lines};

use crate::day_totals::{DayTotals, MoneyTotals, RequestTotals};
use crate::meaning::meaning_of;
use crate::total::Total;
use std::alloc::{AllocError, Global};

/// How a day went, as lines: bodies, repeats, replies, money, hours, terminals and cards. It fails only where memory runs out.
pub fn lines_of(alloc: Global, day: &DayTotals) -> Result<Vec<u8>, AllocError>
    ensures { IfOk result (λ text. text.items ≡ lines_of day.now) }
{
    let mut text = type_lines(alloc, day)?;
    text.extend_from_slice(&action_lines(alloc, &day.actions)?)?;
    text.extend_from_slice(&money_lines(alloc, &day.money)?)?;
    text.extend_from_slice(&request_lines(alloc, &day.requests)?)?;
    Ok(text)
}

// Bodies and repeats.
fn type_lines(alloc: Global, day: &DayTotals) -> Result<Vec<u8>, AllocError>
    ensures { IfOk result (λ text. text.items ≡ type_lines day.now) }
{
    let mut text = lines(alloc, "bodies    ", &day.types)?;
    text.extend_from_slice(&lines(alloc, "repeats   ", &day.repeats)?)?;
    Ok(text)
}

// Sums of money.
fn money_lines(alloc: Global, money: &MoneyTotals) -> Result<Vec<u8>, AllocError>
    ensures { IfOk result (λ text. text.items ≡ money_lines money.now) }
{
    let mut text = lines(alloc, "approved  ", &money.approved)?;
    text.extend_from_slice(&lines(alloc, "declined  ", &money.declined)?)?;
    text.extend_from_slice(&lines(alloc, "reversed  ", &money.reversed)?)?;
    Ok(text)
}

// Requests by hour, terminal and card.
fn request_lines(alloc: Global, requests: &RequestTotals) -> Result<Vec<u8>, AllocError>
    ensures { IfOk result (λ text. text.items ≡ request_lines requests.now) }
{
    let mut text = lines(alloc, "hour      ", &requests.hours)?;
    text.extend_from_slice(&lines(alloc, "terminal  ", &requests.terminals)?)?;
    text.extend_from_slice(&lines(alloc, "card      ", &requests.cards)?)?;
    Ok(text)
}

// Totals that this label stands before.
fn lines(alloc: Global, label: &str, totals: &[Total]) -> Result<Vec<u8>, AllocError>
    ensures { IfOk result (λ text. text.items ≡ lines label.now totals.now) }
{
    let mut text = Vec::new(alloc);
    for total in totals {
        add_line(alloc, &mut text, label, total)?;
    }
    Ok(text)
}

// Appends a total.
fn add_line(alloc: Global, text: &mut Vec<u8>, label: &str, total: &Total) -> Result<(), AllocError>
    ensures { OnOk result (text.new.items ≡ text.old.items ++ line label.now total.now) }
{
    let (name, sum) = (total.name.as_str(), total.sum);
    let line = format!(in alloc; "{label}{name}: {sum}\n")?;
    text.extend_from_slice(line.as_bytes())
}

// Replies by action code.
fn action_lines(alloc: Global, totals: &[Total]) -> Result<Vec<u8>, AllocError>
    ensures { IfOk result (λ text. text.items ≡ action_lines totals.now) }
{
    let mut text = Vec::new(alloc);
    for total in totals {
        add_action(alloc, &mut text, total)?;
    }
    Ok(text)
}

// Appends a total of an action code.
fn add_action(alloc: Global, text: &mut Vec<u8>, total: &Total) -> Result<(), AllocError>
    ensures { OnOk result (text.new.items ≡ text.old.items ++ action_line total.now) }
{
    let (name, sum) = (total.name.as_str(), total.sum);
    let meaning = meaning_of(name);
    let line = format!(in alloc; "replies   {name}: {sum}, {meaning}\n")?;
    text.extend_from_slice(line.as_bytes())
}
