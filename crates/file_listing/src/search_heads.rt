ghost use Rattle.std.specs.Prelude.{◌≡◌, ◌≤◌, length, IfOk, IfErr};
ghost use Rattle.file_listing.specs.Places.{HasLetters, IsHead, IsBlockHead, IsHeadFault, IsBlockHeadFault};

use crate::head_fault::HeadFault;
use crate::search_fields::{field, long, short};

// Sees that the file begins with these letters and version 1.
#[tactic(auto, unfolding(file_laws::specs::Reading::magic_at, file_laws::specs::Reading::version_at, file_laws::specs::Reading::head_at, file_laws::specs::Blocks::block_head_at))]
fn check_letters(file: &[u8], magic: &[u8]) -> Result<(), HeadFault>
    ensures ok { IfOk result (λ _. HasLetters magic.now file.now) }
    ensures err { IfErr result (IsHeadFault magic.now file.now) }
    ensures err_of_blocks { IfErr result (IsBlockHeadFault magic.now file.now) }
{
    let Some(letters) = field(file, 0, 4) else {
        return Err(HeadFault::Ends);
    };
    if letters != magic {
        return Err(HeadFault::Letters);
    }
    match short(file, 4) {
        None => Err(HeadFault::Ends),
        Some(1) => Ok(()),
        Some(version) => Err(HeadFault::Version(version)),
    }
}

/// How many bodies the head of a file announces that begins with these letters, or what is wrong with it.
#[tactic(auto, unfolding(file_laws::specs::Reading::count_at, file_laws::specs::Reading::head_at))]
pub(crate) fn head(file: &[u8], magic: &[u8]) -> Result<u32, HeadFault>
    ensures ok { IfOk result (IsHead magic.now file.now) }
    ensures err { IfErr result (IsHeadFault magic.now file.now) }
{
    check_letters(file, magic)?;
    match long(file, 6) {
        None => Err(HeadFault::Ends),
        Some(count) if count > 65_536 => Err(HeadFault::TooMany(count)),
        Some(count) => Ok(count),
    }
}

/// How many blocks the head of a file announces that begins with these letters, or what is wrong with it.
#[tactic(auto, unfolding(file_laws::specs::Blocks::block_count_at, file_laws::specs::Blocks::block_head_at))]
pub(crate) fn block_head(file: &[u8], magic: &[u8]) -> Result<u32, HeadFault>
    ensures ok { IfOk result (IsBlockHead magic.now file.now) }
    ensures err { IfErr result (IsBlockHeadFault magic.now file.now) }
{
    check_letters(file, magic)?;
    match long(file, 6) {
        None => Err(HeadFault::Ends),
        Some(count) if count > 1_000 => Err(HeadFault::TooMany(count)),
        Some(count) => Ok(count),
    }
}
