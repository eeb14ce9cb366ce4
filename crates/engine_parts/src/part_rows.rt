ghost use Rattle.std.specs.Prelude.{◌≡◌, Some, Ok};
ghost use Rattle.std.specs.FinMap as map;
ghost use Rattle.engine_parts.specs.TwoBooks.{joined};

use issuer_rows::{Book, Places, RowKey, RowVal};
use issuer_view::{RowSource, Stop};

/// The rows that a part sees: those that it wrote, else those of the opening book; and where they were found.
#[derive(Drop)]
pub(crate) struct PartRows<'a> {
    opening: &'a Book,
    written: &'a Book,
    seen: Places,
    own: Places,
}

impl<'a> PartRows<'a> {
    /// The rows of the opening book under those that were written, which may stand at these places.
    pub(crate) fn new(
        opening: &'a Book,
        written: &'a Book,
        seen: Places,
        own: Places,
    ) -> PartRows<'a>
        ensures opening { result.opening.now ≡ opening.now }
        ensures written { result.written.now ≡ written.now }
    {
        PartRows {
            opening,
            written,
            seen,
            own,
        }
    }

    /// Where rows of the opening book were found, and those that were written: hints alone.
    pub(crate) fn into_places(self) -> (Places, Places) {
        (self.seen, self.own)
    }
}

impl RowSource for PartRows<'_> {
    ghost book = { λ source. Some (joined source.opening.now source.written.now) };

    ghost answers = { λ old key result new. (result ≡ Ok (map.get (joined old.opening.now old.written.now) key)) × (new.opening ≡ old.opening) × (new.written ≡ old.written) };

    #[tactic(auto, using(crate::proofs::JoinLaws::get_joined))]
    fn read(&mut self, key: &RowKey) -> Result<Option<RowVal>, Stop> {
        match self.written.get(key) {
            Some(val) => Ok(Some(val)),
            None => Ok(self.opening.get(key)),
        }
    }

    #[inline(always)]
    #[tactic(auto, using(crate::proofs::JoinLaws::get_joined))]
    fn read_into(&mut self, key: &RowKey, row: &mut Option<RowVal>) -> Result<(), Stop> {
        if let Some(val) = self.written.find(key, &mut self.own) {
            val.copy_to(row);
            return Ok(());
        }
        match self.opening.find(key, &mut self.seen) {
            Some(val) => val.copy_to(row),
            None if row.is_some() => *row = None,
            None => {}
        }
        Ok(())
    }
}
