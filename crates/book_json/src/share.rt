ghost use Rattle.std.specs.Prelude.{◌≡◌, []};
ghost use Rattle.book_laws.specs.Text.{Adds, rows_of};
ghost use Rattle.book_text.specs.Left.{tokens_of_entries};
ghost use Rattle.book_json.specs.ReadsOn.{pairs_of};

use crate::read_share::ReadShare;
use crate::row::Row;
use book_entries::{WrittenText, row_of};
use book_laws::RowList;
use book_text::{JsonWriter, write_entry};
use json::{Reader, Scratch};
use memchr::memmem;
use std::alloc::{AllocError, Global};

// About how many bytes the entry of a row takes at least: room for so many rows is made at once.
const BYTES_OF_A_ROW: usize = 60;

/// Some entries of a list in a book's text, and their rows.
#[derive(Drop)]
pub(crate) struct Share<'a> {
    list: RowList,
    later: bool,
    text: &'a [u8],
    // `None` where they aren't read yet; a `None` within it where the text isn't what is written of them.
    read: Option<Result<Option<ReadShare<'a>>, AllocError>>,
}

impl<'a> Share<'a> {
    /// This text of entries, whose rows aren't read yet. It begins with a comma where an entry stands before it.
    pub(crate) fn new(list: RowList, later: bool, text: &'a [u8]) -> Share<'a> {
        Share {
            list,
            later,
            text,
            read: None,
        }
    }

    /// Reads the rows, unless they are read.
    pub(crate) fn read(&mut self, alloc: Global) {
        if self.read.is_none() {
            self.read = Some(read_rows(alloc, self.list, self.later, self.text));
        }
    }

    /// About how many rows the entries have, by the first one.
    pub(crate) fn estimated_rows(&self) -> usize {
        let first = match memmem::find(self.text, b"},{") {
            Some(place) => place,
            None => self.text.len(),
        };
        (self.text.len() / first.max(BYTES_OF_A_ROW)).saturating_add(1)
    }

    /// What was read, which is handed over. It is read now where it wasn't.
    pub(crate) fn take(&mut self, alloc: Global) -> Result<Option<ReadShare<'a>>, AllocError> {
        match self.read.take() {
            Some(read) => read,
            None => read_rows(alloc, self.list, self.later, self.text),
        }
    }
}

// The rows of a text of entries, if it is what is written of them.
fn read_rows<'a>(
    alloc: Global,
    list: RowList,
    later: bool,
    text: &'a [u8],
) -> Result<Option<ReadShare<'a>>, AllocError> {
    let entries = text.strip_prefix(b",").unwrap_or(text);
    let Ok(entries) = str::from_utf8(entries) else {
        return Ok(None);
    };
    let mut scratch = Scratch::new(alloc);
    let mut entries = WrittenText::new(Reader::new(entries, &mut scratch)?);
    let mut rows = Vec::new(alloc);
    rows.reserve(text.len() / BYTES_OF_A_ROW)?;
    let mut made = Vec::new(alloc);
    made.reserve(text.len())?;
    let mut out = JsonWriter::new(made, later);
    // An entry takes more than one byte.
    for _ in 0..text.len() {
        match entries.has_entry() {
            Some(true) => {}
            Some(false) => return Ok(read_share(list, later, text, rows, out)),
            None => return Ok(None),
        }
        let Some((key, val)) = row_of(&mut entries, list) else {
            return Ok(None);
        };
        if !list.has(&val) {
            return Ok(None);
        }
        write_entry(&mut out, &key, &val)?;
        rows.push(Row { key, val })?;
    }
    Ok(None)
}

// These rows with the text, if it is what was written of them.
fn read_share<'a>(
    list: RowList,
    later: bool,
    text: &'a [u8],
    rows: Vec<Row>,
    out: JsonWriter,
) -> Option<ReadShare<'a>>
    requires all { rows_of list (pairs_of rows.items) ≡ pairs_of rows.items }
    requires written { Adds (record { text = []; after_value = later }) out (tokens_of_entries (pairs_of rows.items)) }
{
    let (made, goes_on) = out.into_parts();
    if made.as_slice() != text {
        return None;
    }
    Some(ReadShare {
        list,
        later,
        text,
        rows,
        goes_on,
    })
}
