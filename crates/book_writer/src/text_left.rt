ghost use Rattle.std.specs.Prelude.{◌≤◌, length};

use crate::span::{ENTRIES, Span};
use book_laws::RowList;
use book_text::{ListedRows, emptied, first_piece, last_piece, list_behind, piece_between};
use std::alloc::{AllocError, Global};

/// Where the text of a book is written next.
#[derive(Clone, Copy)]
pub(crate) enum TextPlace {
    /// At its beginning.
    Start,
    /// In this list.
    In(RowList),
    /// Nowhere: all is written.
    End,
}

/// What is left of the text of these rows, and the piece of it that was made last.
#[derive(Drop)]
pub(crate) struct TextLeft<'a> {
    pub(crate) rows: &'a ListedRows<'a>,
    pub(crate) place: TextPlace,
    // The row that is looked at next, and whether an entry of its list is written.
    pub(crate) at: usize,
    pub(crate) later: bool,
    pub(crate) text: Vec<u8>,
    ghost within: { at ≤ length rows.now },
}

impl<'a> TextLeft<'a> {
    ghost use Rattle.std.specs.Prelude.{◌≡◌, ◌<◌, ◌≤◌, ◌++◌, [], length, OnOk, drop};
    ghost use Rattle.book_text.specs.Left.{text_of_rows};
    ghost use Rattle.book_writer.specs.Rest.{rest_of, piece_of, pieces_left};
    ghost use Rattle.book_writer.specs.Sheets.{IsTextOf};
    ghost use Rattle.book_writer.specs.declared.text_left.TextPlace.TheVariants as place;

    /// The whole text of these rows. No piece is made yet.
    pub(crate) fn new(alloc: Global, rows: &'a ListedRows<'a>) -> TextLeft<'a>
        ensures rest { rest_of result ≡ text_of_rows rows.now }
        ensures rows { result.rows.now ≡ rows.now }
    {
        TextLeft {
            rows,
            place: TextPlace::Start,
            at: 0,
            later: false,
            text: Vec::new(alloc),
        }
    }

    /// Begins the text and its first list.
    pub(crate) fn start(&mut self) -> Result<(), AllocError>
        requires { self.old.place ≡ place.Start }
        ensures rest { OnOk result (rest_of self.old ≡ piece_of self.new ++ rest_of self.new) }
        ensures fewer { OnOk result (pieces_left self.new < pieces_left self.old) }
        ensures rows { self.new.rows ≡ self.old.rows }
    {
        self.text = first_piece(emptied(&mut self.text))?;
        self.place = TextPlace::In(RowList::Accounts);
        self.at = 0;
        self.later = false;
        Ok(())
    }

    /// Writes the entries of the next rows, those of a span.
    pub(crate) fn write(&mut self, span: Span) -> Result<(), AllocError>
        requires place { self.old.place ≡ place.In span.list }
        requires at { span.at ≡ self.old.at }
        requires later { span.later ≡ self.old.later }
        requires some { span.at < span.end }
        requires within { span.end ≤ length self.old.rows.now }
        ensures rest { OnOk result (rest_of self.old ≡ piece_of self.new ++ rest_of self.new) }
        ensures fewer { OnOk result (pieces_left self.new < pieces_left self.old) }
        ensures rows { self.new.rows ≡ self.old.rows }
    {
        let (text, goes_on) = span.write(emptied(&mut self.text), self.rows)?;
        self.text = text;
        self.go_on(span, goes_on);
        Ok(())
    }

    /// Goes on behind a span, whose text is there.
    pub(crate) fn go_on(&mut self, span: Span, goes_on: bool)
        requires place { self.old.place ≡ place.In span.list }
        requires at { span.at ≡ self.old.at }
        requires later { span.later ≡ self.old.later }
        requires some { span.at < span.end }
        requires within { span.end ≤ length self.old.rows.now }
        requires made { IsTextOf self.old.rows.now span self.old.text.items goes_on }
        ensures rest { rest_of self.old ≡ piece_of self.new ++ rest_of self.new }
        ensures fewer { pieces_left self.new < pieces_left self.old }
        ensures rows { self.new.rows ≡ self.old.rows }
    {
        self.at = span.end;
        self.later = goes_on;
    }

    /// Writes what stands behind the last entry of the list, up to the first of the next one.
    pub(crate) fn leave(&mut self, list: RowList) -> Result<(), AllocError>
        requires place { self.old.place ≡ place.In list }
        requires rows { drop self.old.at self.old.rows.now ≡ [] }
        ensures rest { OnOk result (rest_of self.old ≡ piece_of self.new ++ rest_of self.new) }
        ensures fewer { OnOk result (pieces_left self.new < pieces_left self.old) }
        ensures rows { self.new.rows ≡ self.old.rows }
    {
        let text = emptied(&mut self.text);
        self.at = 0;
        self.later = false;
        match list_behind(list) {
            Some(next) => {
                self.text = piece_between(text, next)?;
                self.place = TextPlace::In(next);
            }
            None => {
                self.text = last_piece(text)?;
                self.place = TextPlace::End;
            }
        }
        Ok(())
    }

    /// The next rows of the list, as many as a sheet has.
    pub(crate) fn next_rows(&self, list: RowList) -> Span
        requires { self.now.at < length self.now.rows.now }
        ensures list { result.list ≡ list }
        ensures at { result.at ≡ self.now.at }
        ensures later { result.later ≡ self.now.later }
        ensures some { result.at < result.end }
        ensures within { result.end ≤ length self.now.rows.now }
    {
        Span {
            list,
            at: self.at,
            end: self.at.saturating_add(ENTRIES).min(self.rows.len()),
            later: self.later,
        }
    }

    /// The piece that was made last.
    pub(crate) fn piece(&self) -> &[u8]
        ensures { result.now ≡ piece_of self.now }
    {
        &self.text
    }
}
