ghost use Rattle.std.specs.Prelude.{◌≡◌, ◌++◌, IfOk, OnOk, codes};
ghost use Rattle.day_totals.specs.Page.{action_rows, bar_rows, message_sections, money_sections, page_foot, page_head, page_of, request_sections, rows, section, section_head};

use crate::day_totals::{DayTotals, MoneyTotals, RequestTotals};
use crate::frame::{PAGE_FOOT, PAGE_HEAD};
use crate::rows::{add_action_rows, add_bar_rows, add_rows};
use crate::total::Total;
use std::alloc::{AllocError, Global};

/// How a day went, as a page of HTML that needs nothing else: no script, no other file. It fails only where memory runs out.
pub fn page_of(alloc: Global, day: &DayTotals) -> Result<Vec<u8>, AllocError>
    ensures { IfOk result (λ html. html.items ≡ page_of day.now) }
{
    let mut html = Vec::new(alloc);
    add_head(&mut html)?;
    add_messages(alloc, &mut html, day)?;
    add_money(alloc, &mut html, &day.money)?;
    add_requests(alloc, &mut html, &day.requests)?;
    add_foot(&mut html)?;
    Ok(html)
}

// Appends what stands before the sections.
fn add_head(html: &mut Vec<u8>) -> Result<(), AllocError>
    ensures { OnOk result (html.new.items ≡ html.old.items ++ page_head) }
{
    html.extend_from_slice(PAGE_HEAD.as_bytes())
}

// Appends what stands behind them.
fn add_foot(html: &mut Vec<u8>) -> Result<(), AllocError>
    ensures { OnOk result (html.new.items ≡ html.old.items ++ page_foot) }
{
    html.extend_from_slice(PAGE_FOOT.as_bytes())
}

// Appends the sections of bodies and replies.
fn add_messages(alloc: Global, html: &mut Vec<u8>, day: &DayTotals) -> Result<(), AllocError>
    ensures { OnOk result (html.new.items ≡ html.old.items ++ message_sections day.now) }
{
    add_bar_section(alloc, html, "Bodies by message type", &day.types)?;
    add_bar_section(alloc, html, "Repeats by message type", &day.repeats)?;
    add_action_section(alloc, html, "Replies by action code", &day.actions)?;
    Ok(())
}

// Appends the sections of amounts.
fn add_money(alloc: Global, html: &mut Vec<u8>, money: &MoneyTotals) -> Result<(), AllocError>
    ensures { OnOk result (html.new.items ≡ html.old.items ++ money_sections money.now) }
{
    add_section(
        alloc,
        html,
        "Amounts of approved requests by currency",
        &money.approved,
    )?;
    add_section(
        alloc,
        html,
        "Amounts of declined requests by currency",
        &money.declined,
    )?;
    add_section(
        alloc,
        html,
        "Amounts given back by reversals, by currency",
        &money.reversed,
    )?;
    Ok(())
}

// Appends the sections of requests.
fn add_requests(
    alloc: Global,
    html: &mut Vec<u8>,
    requests: &RequestTotals,
) -> Result<(), AllocError>
    ensures { OnOk result (html.new.items ≡ html.old.items ++ request_sections requests.now) }
{
    add_bar_section(alloc, html, "Approved requests by hour", &requests.hours)?;
    add_section(
        alloc,
        html,
        "Declined requests by terminal: the ten most",
        &requests.terminals,
    )?;
    add_section(
        alloc,
        html,
        "Declined requests by card: the ten most",
        &requests.cards,
    )?;
    Ok(())
}

// Appends a section of rows.
fn add_section(
    alloc: Global,
    html: &mut Vec<u8>,
    title: &str,
    totals: &[Total],
) -> Result<(), AllocError>
    ensures { OnOk result (html.new.items ≡ html.old.items ++ section title.now (rows totals.now)) }
{
    open_section(alloc, html, title)?;
    add_rows(alloc, html, totals)?;
    html.extend_from_slice(b"</table>\n</section>\n")?;
    Ok(())
}

// Appends a section of rows with bars.
fn add_bar_section(
    alloc: Global,
    html: &mut Vec<u8>,
    title: &str,
    totals: &[Total],
) -> Result<(), AllocError>
    ensures { OnOk result (html.new.items ≡ html.old.items ++ section title.now (bar_rows totals.now)) }
{
    open_section(alloc, html, title)?;
    add_bar_rows(alloc, html, totals)?;
    html.extend_from_slice(b"</table>\n</section>\n")?;
    Ok(())
}

// Appends a section of rows by action code.
fn add_action_section(
    alloc: Global,
    html: &mut Vec<u8>,
    title: &str,
    totals: &[Total],
) -> Result<(), AllocError>
    ensures { OnOk result (html.new.items ≡ html.old.items ++ section title.now (action_rows totals.now)) }
{
    open_section(alloc, html, title)?;
    add_action_rows(alloc, html, totals)?;
    html.extend_from_slice(b"</table>\n</section>\n")?;
    Ok(())
}

// Appends what stands before a section's rows.
fn open_section(alloc: Global, html: &mut Vec<u8>, title: &str) -> Result<(), AllocError>
    ensures { OnOk result (html.new.items ≡ html.old.items ++ section_head title.now) }
{
    let head = format!(in alloc; "<section>\n<h2>{title}</h2>\n<table>\n")?;
    html.extend_from_slice(head.as_bytes())
}
