ghost use Rattle.std.specs.Prelude.{◌<◌};

use book_laws::RowList;
use book_text::{LISTS, ListedRows, rows_piece};
use std::alloc::{AllocError, Global};

/// How many entries stand on a sheet at most, but of originals whose reversals came ahead.
pub(crate) const ENTRIES: usize = 256;

// How many rows of a list's kind a span has at most. Those whose reversals came ahead stand among the other originals and are few.
fn most_rows(list: RowList) -> usize
    ensures { 0 < result }
{
    match list {
        RowList::Ahead => 16 * ENTRIES,
        _ => ENTRIES,
    }
}

// Adds the spans of a list. The first one begins at the first row, and the last one ends behind the last.
fn add_spans(
    list: RowList,
    rows: &ListedRows<'_>,
    spans: &mut Vec<Span>,
) -> Result<(), AllocError> {
    let most = most_rows(list);
    let count = rows.of_kind(list).len();
    let mut at = 0;
    let mut end = rows.first_of_kind(list);
    for _ in 0..count.saturating_sub(1) / most {
        end = end.saturating_add(most);
        spans.push(Span::new(list, at, end))?;
        at = end;
    }
    spans.push(Span::new(list, at, rows.len()))?;
    Ok(())
}

/// Rows from one place up to another, of which those in a list stand on one sheet.
#[derive(Clone, Copy)]
pub(crate) struct Span {
    pub(crate) list: RowList,
    pub(crate) at: usize,
    pub(crate) end: usize,
    // Whether an entry of the list stands before these rows.
    pub(crate) later: bool,
}

impl Span {
    ghost use Rattle.std.specs.Prelude.{◌≡◌, ◌<◌, ◌≤◌, [], true, length, IsTrue, IfOk};
    ghost use Rattle.book_writer.specs.Sheets.{IsTextOf};

    /// All rows for each list in turn, cut so that no sheet has too many entries. Few rows are looked at for it.
    pub(crate) fn all(alloc: Global, rows: &ListedRows<'_>) -> Result<Vec<Span>, AllocError> {
        let mut spans = Vec::new(alloc);
        for list in LISTS {
            add_spans(list, rows, &mut spans)?;
        }
        Ok(spans)
    }

    // These rows of a list. Before those that aren't the first ones an entry stands.
    fn new(list: RowList, at: usize, end: usize) -> Span {
        Span {
            list,
            at,
            end,
            later: at > 0,
        }
    }

    /// Whether it has rows, all before the end of so many.
    pub(crate) fn is_within(self, len: usize) -> bool
        ensures some { IsTrue result → self.at < self.end }
        ensures within { IsTrue result → self.end ≤ len }
    {
        self.at < self.end && self.end <= len
    }

    /// Whether it is of this list, from this row on.
    pub(crate) fn begins(self, list: RowList, at: usize) -> bool
        ensures list { IsTrue result → self.list ≡ list }
        ensures at { IsTrue result → self.at ≡ at }
    {
        self.list == list && self.at == at
    }

    /// Whether it is this one.
    pub(crate) fn is(self, other: Span) -> bool
        ensures { IsTrue result → self ≡ other }
    {
        self.begins(other.list, other.at) && self.end == other.end && self.later == other.later
    }

    /// The text of those of its rows that stand in the list, and whether an entry stands before the rows behind them.
    pub(crate) fn write(
        self,
        text: Vec<u8>,
        rows: &ListedRows<'_>,
    ) -> Result<(Vec<u8>, bool), AllocError>
        requires empty { text.items ≡ [] }
        requires some { self.at < self.end }
        requires within { self.end ≤ length rows.now }
        ensures { IfOk result (λ written. IsTextOf rows.now self written.0.items written.1) }
    {
        let rows = rows.range(self.at, self.end);
        let (text, goes_on) = rows_piece(text, self.later, self.list, &rows)?;
        Ok((text, goes_on))
    }
}
