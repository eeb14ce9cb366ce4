ghost use Rattle.std.specs.Prelude.{◌≡◌, ◌≤◌, ◌++◌, [], length, take, IfOk, IfErr, OnOk, OnErr};
ghost use Rattle.byteorder.specs.Endian.{big_bytes};
ghost use Rattle.file_laws.specs.Files.{AreBodies};
ghost use Rattle.log_file.specs.Growing.{AddsPart, Begins};
ghost use Rattle.file_laws.specs.Texts.{entry_text, next_digest};
ghost use Rattle.log_file.specs.Device.{UsesFile};

use crate::bodies::Bodies;
use crate::chain::digest_of;
use crate::growing_file::GrowingFile;
use file_laws::LogFault;
use std::alloc::AllocError;

/// Writes all of the bytes behind what the file has. After a fault a beginning of them was written. None is synced.
pub(crate) fn put_all<G: GrowingFile>(file: &mut G, bytes: &[u8]) -> Result<(), LogFault>
    ensures file { UsesFile G.is_known G.has_failed G.may_fail file.old file.new result }
    ensures synced { G.is_known file.old → G.synced file.new ≡ G.synced file.old }
    ensures ok { OnOk result (G.is_known file.old → G.unsynced file.new ≡ G.unsynced file.old ++ bytes.now) }
    ensures err { OnErr result (G.is_known file.old → AddsPart (G.unsynced file.old) (G.unsynced file.new) bytes.now) }
    ensures fault { IfErr result (λ e. e ≡ LogFault.Failed) }
{
    let mut rest = bytes;
    while !rest.is_empty() {
        match file.put(rest) {
            Ok(0) => return Err(LogFault::Failed),
            Ok(count) => rest = &rest[count..],
            Err(_) => return Err(LogFault::Failed),
        }
    }
    Ok(())
}

/// Returns when all that the file has is synced.
pub(crate) fn sync<G: GrowingFile>(file: &mut G) -> Result<(), LogFault>
    ensures file { UsesFile G.is_known G.has_failed G.may_fail file.old file.new result }
    ensures bytes { G.is_known file.old → G.synced file.new ++ G.unsynced file.new ≡ G.synced file.old ++ G.unsynced file.old }
    ensures synced { G.is_known file.old → Begins (G.synced file.old) (G.synced file.new) }
    ensures all { OnOk result (G.is_known file.old → G.unsynced file.new ≡ []) }
    ensures fault { IfErr result (λ e. e ≡ LogFault.Failed) }
{
    match file.sync() {
        Ok(()) => Ok(()),
        Err(_) => Err(LogFault::Failed),
    }
}

/// Cuts the file to so many bytes, and returns when these are synced.
pub(crate) fn cut_and_sync<G: GrowingFile>(file: &mut G, size: u64) -> Result<(), LogFault>
    requires { G.is_known file.old → size ≤ length (G.synced file.old ++ G.unsynced file.old) }
    ensures file { UsesFile G.is_known G.has_failed G.may_fail file.old file.new result }
    ensures synced { OnOk result (G.is_known file.old → G.synced file.new ≡ take size (G.synced file.old ++ G.unsynced file.old)) }
    ensures all { OnOk result (G.is_known file.old → G.unsynced file.new ≡ []) }
    ensures fault { IfErr result (λ e. e ≡ LogFault.Failed) }
{
    match file.cut(size) {
        Ok(()) => sync(file),
        Err(_) => Err(LogFault::Failed),
    }
}

/// Writes all of the bytes behind what the file has, and returns when they are synced. After a fault a beginning of them stands there, and
/// what was synced is synced still.
pub(crate) fn put_and_sync<G: GrowingFile>(file: &mut G, bytes: &[u8]) -> Result<(), LogFault>
    ensures file { UsesFile G.is_known G.has_failed G.may_fail file.old file.new result }
    ensures synced { OnOk result (G.is_known file.old → G.synced file.new ≡ G.synced file.old ++ G.unsynced file.old ++ bytes.now) }
    ensures all { OnOk result (G.is_known file.old → G.unsynced file.new ≡ []) }
    ensures part { OnErr result (G.is_known file.old
        → AddsPart (G.synced file.old ++ G.unsynced file.old) (G.synced file.new ++ G.unsynced file.new) bytes.now) }
    ensures kept { G.is_known file.old → Begins (G.synced file.old) (G.synced file.new) }
    ensures fault { IfErr result (λ e. e ≡ LogFault.Failed) }
{
    put_all(file, bytes)?;
    sync(file)
}

/// Makes the text of an entry of these bodies, behind the entry of this digest, over the memory of another. Returns its digest.
#[tactic(auto, unfolding(file_laws::specs::Texts::payload_text, file_laws::specs::Texts::entry_head))]
pub(crate) fn make_entry(
    text: &mut Vec<u8>,
    before: &[u8; 32],
    bodies: &Bodies,
) -> Result<[u8; 32], AllocError>
    ensures text { OnOk result (text.new.items ≡ entry_text before.now bodies.now) }
    ensures digest { IfOk result (λ digest. digest ≡ next_digest before.now bodies.now) }
    ensures are { AreBodies bodies.now }
{
    text.clear();
    let framed = bodies.framed();
    let size = framed.len() as u32 + 4;
    add_long(text, size)?;
    add_long(text, u32::MAX - size)?;
    add_long(text, bodies.len())?;
    text.extend_from_slice(framed)?;
    let digest = digest_of(before, &text[8..]);
    text.extend_from_slice(&digest)?;
    Ok(digest)
}

// Appends a number in four bytes, the highest first.
fn add_long(text: &mut Vec<u8>, number: u32) -> Result<(), AllocError>
    ensures { OnOk result (text.new.items ≡ text.old.items ++ big_bytes 4 number) }
{
    text.extend_from_slice(&number.to_be_bytes())
}
