ghost use Rattle.std.specs.Prelude.{◌≡◌, ◌≢◌, ◌∷◌, ◌++◌, [], None, IfOk, IfSome, OnOk, OnErr};
ghost use Rattle.std.specs.FinMap as map;
ghost use Rattle.issuer_fold.specs.Formers.{Former, AreFormersOfKind, AreThere, LeadsBack, given_back};
ghost use Rattle.issuer_fold.specs.Former.{with_former};
ghost use Rattle.issuer_words.specs.Words.{IsOfKind, Rows, overlay};

use issuer_rows::{Book, Places, RowKey, RowVal};
use issuer_view::WriteSet;
use std::alloc::{AllocError, Global};
use std::marker::Model;

/// What rows of a book were before they were written, in the order of writing: a value, or that the row was absent. With it the book is
/// given back what it was, without a copy of the whole.
#[derive(Drop)]
pub struct Formers {
    rows: Vec<(RowKey, Option<RowVal>)>,
}

impl Model for Formers {
    ghost use Rattle.std.specs.Prelude.{List};
    ghost use Rattle.issuer_fold.specs.Formers.{Former, AreFormersOfKind};

    ghost Value = { List Former };

    ghost view = { λ formers. formers.rows.items };

    ghost invariant = { λ formers. AreFormersOfKind formers.rows.items };
}

impl Formers {
    /// No row was written yet.
    pub fn new(alloc: Global) -> Formers
        ensures { result ≡ [] }
    {
        Formers {
            rows: Vec::new(alloc),
        }
    }

    /// Writes a copy of a row, and notes what it was. It fails only where memory runs out, and nothing is changed then.
    pub fn put(
        &mut self,
        book: &mut Book,
        key: &RowKey,
        row: &RowVal,
        places: &mut Places,
    ) -> Result<(), AllocError>
        requires { IsOfKind key.now row.now }
        ensures book { OnOk result (book.new ≡ map.insert book.old key.now row.now) }
        ensures noted { OnOk result (self.new ≡ self.old ++ (key.now, map.get book.old key.now) ∷ []) }
        ensures err { OnErr result ((book.new ≡ book.old) × (self.new ≡ self.old)) }
    {
        self.rows.reserve(1)?;
        let former = book.find(key, places).copied();
        book.put_copy_near(key, row, places)?;
        self.rows.push_reserved((*key, former));
        Ok(())
    }

    /// Writes these rows, one after another, each where it was found, and notes what each was. It fails only where memory runs out, and
    /// the first rows are written then. What was noted before leads back all the same.
    pub(crate) fn put_each(
        &mut self,
        book: &mut Book,
        writes: &WriteSet,
        places: &mut Places,
    ) -> Result<(), AllocError>
        ensures ok { OnOk result (book.new ≡ overlay book.old writes.now) }
        ensures back { (earlier : Rows) → LeadsBack book.old self.old earlier → LeadsBack book.new self.new earlier }
    {
        for index in 0..writes.len() {
            let (key, row) = writes.row(index);
            self.put(book, key, row, places)?;
        }
        Ok(())
    }

    /// Gives the rows back what they were, the one that was written last first. It takes no memory.
    pub fn give_back(self, book: &mut Book)
        requires { AreThere book.old self }
        ensures { book.new ≡ given_back book.old self }
    {
        let Formers { rows } = self;
        give_back_each(book, rows);
    }
}

// Gives rows back what they were, the last one first.
fn give_back_each(book: &mut Book, rows: Vec<(RowKey, Option<RowVal>)>)
    requires there { AreThere book.old rows.items }
    requires kind { AreFormersOfKind rows.items }
    ensures { book.new ≡ given_back book.old rows.items }
{
    let mut left = rows;
    while let Some((key, former)) = left.pop() {
        give_back_row(book, &key, &former);
    }
}

// Gives a row that is there back what it was.
fn give_back_row(book: &mut Book, key: &RowKey, former: &Option<RowVal>)
    requires there { map.get book.old key.now ≢ None }
    requires kind { IfSome former.now (IsOfKind key.now) }
    ensures { book.new ≡ with_former book.old key.now former.now }
{
    match former {
        Some(row) => {
            if book.put_copy(key, row).is_err() {
                unreachable!()
            }
        }
        None => {
            book.remove(key);
        }
    }
}
