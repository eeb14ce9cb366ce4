ghost use Rattle.std.specs.Prelude.{◌≡◌, ◌≢◌, ◌<◌, ◌++◌, ℕ, List, [], false, length, Err, IfErr, IfOk, IfSome, OnOk};
ghost use Rattle.file_devices.specs.Holding.{IsThere};

use crate::files::Files;
use crate::host_reason::HostReason;
use crate::read_fault::ReadFault;
use crate::source::Source;
use std::alloc::{AllocError, Global};

// How many bytes are asked for at once.
const PIECE: usize = 65_536;

/// What the file of this name holds, whole. One that holds known bytes is read, unless a call of its device fails or memory runs out;
/// where it is known what files hold, no other is.
pub fn read_file<F: Files>(alloc: Global, files: &F, name: &str) -> Result<Vec<u8>, ReadFault>
    ensures read { (bytes : List ℕ) → F.holds files.now name.now bytes → IfOk result (λ read. read.items ≡ bytes) }
    ensures there { OnOk result (F.is_known files.now → IsThere (F.holds files.now) name.now) }
    ensures unreadable { result ≡ Err ReadFault.Unreadable → (bytes : List ℕ) → F.holds files.now name.now bytes → (F.failing files.now).reading name.now }
{
    let mut input = files.open(name)?;
    read_rest(alloc, &mut input)
}

/// What the file of this name holds, whole, where it can be opened once more. `None` where it isn't, as it might wait, or memory runs
/// out. It fails where the file can't be opened, for this reason, or where its device fails.
pub fn read_again<F: Files>(
    alloc: Global,
    files: &F,
    name: &str,
) -> Result<Option<Vec<u8>>, HostReason>
    ensures read { IfOk result (λ again. IfSome again (λ read. (bytes : List ℕ) → F.holds files.now name.now bytes → read.items ≡ bytes)) }
    ensures absent { IfErr result (λ reason. reason ≢ HostReason.Failed → (bytes : List ℕ) → ¬ F.holds files.now name.now bytes) }
{
    let Some(mut input) = files.open_again(name)? else {
        return Ok(None);
    };
    match read_rest(alloc, &mut input) {
        Ok(read) => Ok(Some(read)),
        Err(ReadFault::Unreadable) => Err(HostReason::Failed),
        Err(ReadFault::OutOfMemory) => Ok(None),
    }
}

// All that the source still gives.
fn read_rest<S: Source>(alloc: Global, source: &mut S) -> Result<Vec<u8>, ReadFault>
    ensures read { S.is_known source.old → IfOk result (λ read. read.items ≡ S.remaining source.old) }
    ensures unreadable { result ≡ Err ReadFault.Unreadable → S.may_fail source.old }
{
    let mut piece = empty_piece(alloc)?;
    let mut read = Vec::new(alloc);
    read_pieces(source, piece.as_mut_slice(), &mut read)?;
    Ok(read)
}

// Room for a piece.
fn empty_piece(alloc: Global) -> Result<Vec<u8>, AllocError>
    ensures { IfOk result (λ piece. 0 < length piece.items) }
{
    vec![in alloc; 0; PIECE]
}

// All that the source still gives, piece by piece.
fn read_pieces<S: Source>(
    source: &mut S,
    piece: &mut [u8],
    read: &mut Vec<u8>,
) -> Result<(), ReadFault>
    requires some { 0 < length piece.old }
    ensures read { S.is_known source.old → OnOk result (read.new.items ≡ read.old.items ++ S.remaining source.old) }
    ensures unreadable { result ≡ Err ReadFault.Unreadable → S.may_fail source.old }
{
    for _ in 0..u64::MAX {
        if !read_piece(source, piece, read)? {
            return Ok(());
        }
    }
    // No memory can hold so many pieces.
    Err(ReadFault::OutOfMemory)
}

// Reads the next piece, and returns whether there was one.
fn read_piece<S: Source>(
    source: &mut S,
    piece: &mut [u8],
    read: &mut Vec<u8>,
) -> Result<bool, ReadFault>
    requires some { 0 < length piece.old }
    ensures unreadable { result ≡ Err ReadFault.Unreadable → S.may_fail source.old }
    ensures may { S.may_fail source.new → S.may_fail source.old }
    ensures known { S.is_known source.old → S.is_known source.new }
    ensures size { length piece.new ≡ length piece.old }
    ensures bytes { OnOk result (S.is_known source.old →
        read.old.items ++ S.remaining source.old ≡ read.new.items ++ S.remaining source.new) }
    ensures end { IfOk result (λ more. more ≡ false → S.is_known source.old → S.remaining source.new ≡ []) }
{
    let Ok(count) = source.take(piece) else {
        return Err(ReadFault::Unreadable);
    };
    read.extend_from_slice(&piece[..count])?;
    Ok(count > 0)
}
