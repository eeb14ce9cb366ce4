ghost use Rattle.std.specs.Prelude.{◌≡◌, ◌↔◌, ℕ, None, Err, IsOk, OnOk, IfSome};
ghost use Rattle.std.specs.FinMap as map;
ghost use Rattle.stm_memory.specs.declared.version.Version.{Version};
ghost use Rattle.issuer_rows.specs.RowVal.{IsOfKind};
ghost use Rattle.split_state.specs.declared.sight.Sight.TheVariants as sights;
ghost use Rattle.issuer_view.specs.declared.stop.Stop.TheVariants as stop;

use crate::look::Look;
use crate::shards::Shards;
use crate::sight::Sight;
use issuer_rows::{Book, RowKey, RowVal};
use issuer_view::{RowSource, Stop};
use std::sync::Wait;

/// The rows that the message at one index sees: what the nearest messages before it wrote, else those of the opening book. The lock of a
/// row's shard is taken for each of them, and held no longer. Whose they were is logged.
#[derive(Drop)]
pub struct ShardRows<'a, R: Wait> {
    rt: &'a R,
    shards: &'a Shards,
    opening: &'a Book,
    index: u32,
    log: Vec<Look>,
}

impl<'a, R: Wait> ShardRows<'a, R> {
    /// The rows that the message at this index sees, with a log over the memory of this one; what it held is gone.
    pub fn new(
        rt: &'a R,
        shards: &'a Shards,
        opening: &'a Book,
        index: u32,
        mut log: Vec<Look>,
    ) -> ShardRows<'a, R>
        ensures { result.index ≡ index }
    {
        log.clear();
        ShardRows {
            rt,
            shards,
            opening,
            index,
            log,
        }
    }

    /// Whose rows were seen, in the order of asking.
    pub fn into_log(self) -> Vec<Look> {
        let ShardRows { log, .. } = self;
        log
    }
}

impl<R: Wait> RowSource for ShardRows<'_, R> {
    // Which book a message sees isn't known: others may not have finished.
    ghost book = { λ _. None };

    // Nor is what other workers do between two questions.
    ghost answers = { λ old _ _ new. new.index ≡ old.index };

    fn read(&mut self, key: &RowKey) -> Result<Option<RowVal>, Stop> {
        let mut row = None;
        self.read_into(key, &mut row)?;
        Ok(row)
    }

    #[tactic(auto, using(crate::proofs::Sights::put_of_kind))]
    fn read_into(&mut self, key: &RowKey, row: &mut Option<RowVal>) -> Result<(), Stop> {
        let look = self.shards.look(self.rt, key, self.index, row);
        self.log.push(look)?;
        see(self.opening, key, look.sight, row)
    }
}

// Where no message wrote the row, that of the opening book is copied to the caller's place; what a message wrote stands there already. An
// ESTIMATE blocks the message.
fn see(opening: &Book, key: &RowKey, sight: Sight, row: &mut Option<RowVal>) -> Result<(), Stop>
    requires { (version : Version) → sight ≡ sights.Put version → IfSome row.old (IsOfKind key.now) }
    ensures base { sight ≡ sights.Base → IsOk result × (row.new ≡ map.get opening.now key.now) }
    ensures put { (version : Version) → sight ≡ sights.Put version → IsOk result × (row.new ≡ row.old) }
    ensures blocked { (at : ℕ) → (result ≡ Err (stop.Blocked at)) ↔ (sight ≡ sights.Estimate at) }
    ensures kind { OnOk result (IfSome row.new (IsOfKind key.now)) }
{
    match sight {
        Sight::Base => {
            match opening.row(key) {
                Some(val) => val.copy_to(row),
                None => *row = None,
            }
            Ok(())
        }
        Sight::Put(_) => Ok(()),
        Sight::Estimate(at) => Err(Stop::Blocked(at)),
    }
}
