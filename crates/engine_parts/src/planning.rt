ghost use Rattle.std.specs.Prelude.{◌≡◌, ◌<◌, ◌≤◌, [], length, map, zip, IfOk};
ghost use Rattle.issuer_laws.specs.Parts.{AreApart};
ghost use Rattle.engine_parts.specs.Plan.{IsNumbered};
ghost use Rattle.engine_parts.specs.Ties.{HaveHeads, numbers_of, part_at};

use crate::packing::pack;
use crate::part_table::PartTable;
use crate::parts_plan::PartsPlan;
use crate::ties::Ties;
use issuer_rows::{Book, Frame};
use std::alloc::{AllocError, Global};

/// Plans in how many parts, and at most so many, a batch is decided on a book, and to which part each message belongs: no two parts have a
/// message each that may need the same row. So parts are decided apart as they are together. It fails only where memory runs out.
pub fn plan_parts(
    alloc: Global,
    book: &Book,
    frames: &[Frame],
    most: u32,
) -> Result<PartsPlan, AllocError>
    requires { 0 < most }
    ensures numbered { IfOk result IsNumbered }
    ensures most { IfOk result (λ plan. plan.count ≤ most) }
    ensures each { IfOk result (λ plan. length plan.parts ≡ length frames.now) }
    ensures apart { IfOk result (λ plan. AreApart book.now (zip plan.parts frames.now)) }
{
    let mut ties = Ties::new(alloc, frames.len())?;
    let heads = heads_of(alloc, &mut ties, book, frames)?;
    let numbers = u32::try_from(ties.keys.len()).unwrap_or(u32::MAX);
    let packed = pack(alloc, numbers, &ties.links, &heads, most)?;
    let table = packed.checked(alloc, &ties.links, most);
    let parts = parts_of(alloc, &table, &heads)?;
    let plan = PartsPlan::new(parts, table.count);
    Ok(plan)
}

// The heads of the messages, in their order.
fn heads_of(
    alloc: Global,
    ties: &mut Ties,
    book: &Book,
    frames: &[Frame],
) -> Result<Vec<u32>, AllocError>
    requires { (ties.old.keys.entries ≡ []) × (ties.old.links.items ≡ []) }
    ensures each { IfOk result (λ heads. length heads.items ≡ length frames.now) }
    ensures heads { IfOk result (λ heads. HaveHeads book.now (numbers_of ties.new) ties.new.links.items heads.items frames.now) }
{
    let mut heads = Vec::with_capacity(alloc, frames.len())?;
    for frame in frames {
        heads.push(ties.head_of(book, frame)?)?;
    }
    Ok(heads)
}

// The parts of the messages with these heads.
fn parts_of(alloc: Global, table: &PartTable, heads: &[u32]) -> Result<Vec<u32>, AllocError>
    ensures { IfOk result (λ parts. parts.items ≡ map (part_at table.now.of_number.items) heads.now) }
{
    heads.iter().map(|head| table.part_of(*head)).collect(alloc)
}
