ghost use Rattle.std.specs.Prelude.{◌≡◌, ◌++◌, ℕ, List, OnOk, string_bytes};
ghost use Rattle.day_totals.specs.Meaning.{meaning_of};
ghost use Rattle.day_totals.specs.Page.{action_row, action_rows, bar_cell, bar_row, bar_rows, bar_width, number_cell, row, rows, text_cell};

use crate::bars::{bar_width, most_of};
use crate::escaping::escape;
use crate::meaning::meaning_of;
use crate::total::Total;
use std::alloc::{AllocError, Global};

// Appends the rows of totals.
pub(crate) fn add_rows(
    alloc: Global,
    html: &mut Vec<u8>,
    totals: &[Total],
) -> Result<(), AllocError>
    ensures { OnOk result (html.new.items ≡ html.old.items ++ rows totals.now) }
{
    for total in totals {
        add_row(alloc, html, total)?;
    }
    Ok(())
}

// Appends the rows of totals with bars.
pub(crate) fn add_bar_rows(
    alloc: Global,
    html: &mut Vec<u8>,
    totals: &[Total],
) -> Result<(), AllocError>
    ensures { OnOk result (html.new.items ≡ html.old.items ++ bar_rows totals.now) }
{
    let most = most_of(totals);
    for total in totals {
        add_bar_row(alloc, html, most, total)?;
    }
    Ok(())
}

// Appends the rows of totals by action code, with bars and meanings.
pub(crate) fn add_action_rows(
    alloc: Global,
    html: &mut Vec<u8>,
    totals: &[Total],
) -> Result<(), AllocError>
    ensures { OnOk result (html.new.items ≡ html.old.items ++ action_rows totals.now) }
{
    let most = most_of(totals);
    for total in totals {
        add_action_row(alloc, html, most, total)?;
    }
    Ok(())
}

// Appends a row.
fn add_row(alloc: Global, html: &mut Vec<u8>, total: &Total) -> Result<(), AllocError>
    ensures { OnOk result (html.new.items ≡ html.old.items ++ row total.now) }
{
    html.extend_from_slice(b"<tr>")?;
    add_name_cell(html, &total.name)?;
    add_number_cell(alloc, html, total.sum)?;
    html.extend_from_slice(b"</tr>\n")?;
    Ok(())
}

// Appends a row with a bar.
fn add_bar_row(
    alloc: Global,
    html: &mut Vec<u8>,
    most: u64,
    total: &Total,
) -> Result<(), AllocError>
    ensures { OnOk result (html.new.items ≡ html.old.items ++ bar_row most total.now) }
{
    html.extend_from_slice(b"<tr>")?;
    add_name_cell(html, &total.name)?;
    add_number_cell(alloc, html, total.sum)?;
    add_share_cell(alloc, html, most, total.sum)?;
    html.extend_from_slice(b"</tr>\n")?;
    Ok(())
}

// Appends a row with a bar and the meaning of its action code.
fn add_action_row(
    alloc: Global,
    html: &mut Vec<u8>,
    most: u64,
    total: &Total,
) -> Result<(), AllocError>
    ensures { OnOk result (html.new.items ≡ html.old.items ++ action_row most total.now) }
{
    html.extend_from_slice(b"<tr>")?;
    add_name_cell(html, &total.name)?;
    add_number_cell(alloc, html, total.sum)?;
    add_share_cell(alloc, html, most, total.sum)?;
    add_meaning_cell(html, &total.name)?;
    html.extend_from_slice(b"</tr>\n")?;
    Ok(())
}

// Appends a cell with the name of a total.
fn add_name_cell(html: &mut Vec<u8>, name: &String) -> Result<(), AllocError>
    ensures { OnOk result (html.new.items ≡ html.old.items ++ text_cell (string_bytes name.now)) }
{
    add_text_cell(html, name.as_str())
}

// Appends a cell with the meaning of an action code.
fn add_meaning_cell(html: &mut Vec<u8>, name: &String) -> Result<(), AllocError>
    ensures { OnOk result (html.new.items ≡ html.old.items ++ text_cell (meaning_of (string_bytes name.now))) }
{
    add_text_cell(html, meaning_of(name.as_str()))
}

// Appends a cell with the bar of a total, beside the greatest.
fn add_share_cell(alloc: Global, html: &mut Vec<u8>, most: u64, sum: u64) -> Result<(), AllocError>
    ensures { OnOk result (html.new.items ≡ html.old.items ++ bar_cell (bar_width most sum)) }
{
    add_bar_cell(alloc, html, bar_width(most, sum))
}

// Appends a cell with a text.
fn add_text_cell(html: &mut Vec<u8>, text: &str) -> Result<(), AllocError>
    ensures { OnOk result (html.new.items ≡ html.old.items ++ text_cell text.now) }
{
    html.extend_from_slice(b"<td>")?;
    escape(html, text.as_bytes())?;
    html.extend_from_slice(b"</td>")
}

// Appends a cell with a number.
fn add_number_cell(alloc: Global, html: &mut Vec<u8>, number: u64) -> Result<(), AllocError>
    ensures { OnOk result (html.new.items ≡ html.old.items ++ number_cell number) }
{
    let cell = format!(in alloc; "<td class=\"number\">{number}</td>")?;
    html.extend_from_slice(cell.as_bytes())
}

// Appends a cell with a bar of this width.
fn add_bar_cell(alloc: Global, html: &mut Vec<u8>, width: u64) -> Result<(), AllocError>
    ensures { OnOk result (html.new.items ≡ html.old.items ++ bar_cell width) }
{
    let cell = format!(in alloc;
        "<td><svg width=\"300\" height=\"12\" aria-hidden=\"true\"><rect width=\"{width}\" height=\"12\"/></svg></td>"
    )?;
    html.extend_from_slice(cell.as_bytes())
}
