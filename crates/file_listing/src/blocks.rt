ghost use Rattle.std.specs.Prelude.{◌≡◌, ◌≢◌, Err, IfOk, IfErr, map};
ghost use Rattle.file_laws.specs.Blocks.{block_at};
ghost use Rattle.file_listing.specs.BlockLines.{AreTextsOf, FailsAmongBlocks, FailsAsBlockFile, HasTextOf, HaveTextsOf};

use crate::head::{block_head_at, count_at};
use crate::lines::lines_of_bodies;
use file_laws::BatchFault;
use std::alloc::Global;

/// The bodies of each block of a block file as a text, a line each, in hexadecimal digits of lower case. It fails with the first fault of the
/// file in reading order, as `read_blocks`, or where memory runs out.
pub fn texts_of_blocks(alloc: Global, file: &[u8]) -> Result<Vec<Vec<u8>>, BatchFault>
    ensures texts { IfOk result (λ texts. AreTextsOf file.now (map (λ text. text.items) texts.items)) }
    ensures fault { IfErr result (λ fault. fault ≢ BatchFault.OutOfMemory → FailsAsBlockFile file.now fault) }
{
    let (count, blocks) = match block_head_at(file) {
        Ok(parts) => parts,
        Err(fault) => return Err(fault),
    };
    let (texts, behind) = match texts_at(alloc, count, blocks) {
        Ok(parts) => parts,
        Err(fault) => return Err(fault),
    };
    if !behind.is_empty() {
        return Err(BatchFault::Trailing);
    }
    Ok(texts)
}

// The texts of so many blocks, and the bytes behind them.
fn texts_at(alloc: Global, count: u32, bytes: &[u8]) -> Result<(Vec<Vec<u8>>, &[u8]), BatchFault>
    ensures texts { IfOk result (λ parts. HaveTextsOf count bytes.now (map (λ text. text.items) parts.0.items) parts.1.now) }
    ensures fault { IfErr result (λ fault. fault ≢ BatchFault.OutOfMemory → FailsAmongBlocks count bytes.now fault) }
{
    let mut texts = Vec::new(alloc);
    let mut rest = bytes;
    let mut left = count;
    while left > 0 {
        let (text, behind) = match text_of_block(alloc, rest) {
            Ok(parts) => parts,
            Err(fault) => return Err(fault),
        };
        texts.push(text)?;
        rest = behind;
        left -= 1;
    }
    Ok((texts, rest))
}

// The text of a block, and the bytes behind it.
#[tactic(auto, unfolding(file_laws::specs::Blocks::block_at))]
fn text_of_block(alloc: Global, bytes: &[u8]) -> Result<(Vec<u8>, &[u8]), BatchFault>
    ensures text { IfOk result (λ parts. HasTextOf bytes.now parts.0.items parts.1.now) }
    ensures fault { IfErr result (λ fault. fault ≢ BatchFault.OutOfMemory → block_at bytes.now ≡ Err fault) }
{
    let (count, bodies) = match count_at(bytes) {
        Ok(parts) => parts,
        Err(fault) => return Err(fault),
    };
    lines_of_bodies(alloc, count, bodies)
}
