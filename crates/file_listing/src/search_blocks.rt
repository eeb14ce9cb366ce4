ghost use Rattle.std.specs.Prelude.{◌≡◌, ◌≤◌, length, IfOk, IfErr, IfSome, IfNone};
ghost use Rattle.file_laws.specs.Blocks.{blocks_magic, block_replies_magic};
ghost use Rattle.file_listing.specs.Places.{AreBlocks, IsBlockAt, IsBlockPlace, IsBlocksPlace, IsWholeBlockFile, IsWrongBlock};

use crate::block_place::BlockPlace;
use crate::blocks_place::BlocksPlace;
use crate::body_kind::BodyKind;
use crate::search_bodies::end_of_bodies;
use crate::search_fields::long;
use crate::search_heads::block_head;
use crate::wrong_block::WrongBlock;

// Where the first block begins.
const HEAD: usize = 10;

// The byte behind the block whose count begins at this byte.
#[tactic(auto, unfolding(file_laws::specs::Reading::count_at, file_laws::specs::Blocks::block_at))]
fn block_end(file: &[u8], at: usize, kind: BodyKind) -> Result<usize, WrongBlock>
    requires { at ≤ length file.now }
    ensures ok { IfOk result (IsBlockAt kind file.now at) }
    ensures err { IfErr result (IsWrongBlock kind file.now at) }
{
    let Some(count) = long(file, at) else {
        return Err(WrongBlock::Ends);
    };
    if count > 65_536 {
        return Err(WrongBlock::TooMany(count));
    }
    match end_of_bodies(file, at + 4, count, kind) {
        Ok(end) => Ok(end),
        Err(place) => Err(WrongBlock::Body(place)),
    }
}

// The byte behind so many blocks of this kind, or the first of them that is wrong.
fn end_of_blocks(file: &[u8], count: u32, kind: BodyKind) -> Result<usize, BlockPlace>
    requires { 10 ≤ length file.now }
    ensures ok { IfOk result (AreBlocks kind file.now 10 count) }
    ensures count { IfErr result (λ place. place.of ≡ count) }
    ensures err { IfErr result (IsBlockPlace kind file.now) }
{
    let mut end = HEAD;
    for number in 0..count {
        match block_end(file, end, kind) {
            Ok(next) => end = next,
            Err(wrong) => {
                return Err(BlockPlace {
                    number,
                    of: count,
                    at: end,
                    wrong,
                });
            }
        }
    }
    Ok(end)
}

// Whether the file has this head and the blocks that it announces, and nothing behind them.
fn check_file(file: &[u8], magic: &[u8], kind: BodyKind) -> Result<(), BlocksPlace>
    ensures ok { IfOk result (λ _. IsWholeBlockFile magic.now kind file.now) }
    ensures err { IfErr result (IsBlocksPlace magic.now kind file.now) }
{
    let count = match block_head(file, magic) {
        Ok(count) => count,
        Err(wrong) => return Err(BlocksPlace::Head(wrong)),
    };
    let end = match end_of_blocks(file, count, kind) {
        Ok(end) => end,
        Err(place) => return Err(BlocksPlace::Block(place)),
    };
    if end < file.len() {
        return Err(BlocksPlace::Behind(end, file.len() - end));
    }
    Ok(())
}

/// Where the first fault of a file of blocks stands, and what stands there; nothing where the file is one.
pub fn place_in_blocks(file: &[u8]) -> Option<BlocksPlace>
    ensures place { IfSome result (IsBlocksPlace blocks_magic BodyKind.Message file.now) }
    ensures none { IfNone result (IsWholeBlockFile blocks_magic BodyKind.Message file.now) }
{
    check_file(file, b"I83M", BodyKind::Message).err()
}

/// Where the first fault of a file of the replies of blocks stands, and what stands there; nothing where the file is one.
pub fn place_in_block_replies(file: &[u8]) -> Option<BlocksPlace>
    ensures place { IfSome result (IsBlocksPlace block_replies_magic BodyKind.Reply file.now) }
    ensures none { IfNone result (IsWholeBlockFile block_replies_magic BodyKind.Reply file.now) }
{
    check_file(file, b"I83T", BodyKind::Reply).err()
}
