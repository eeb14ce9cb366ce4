ghost use Rattle.std.specs.Prelude.{◌≡◌, ◌≢◌, ◌⊎◌, IfOk, IfErr, IsTrue, take};
ghost use Rattle.std.specs.Str.{bytes_eq};
ghost use Rattle.app_messages.specs.Shown.{AreLinesAs, FailsAs, IsShowFault, IsShown, kind_of, kind_named};
ghost use Rattle.app_reasons.specs.declared.file_kind.FileKind.TheVariants.{Batch, Replies, Blocks, BlockReplies};
ghost use Rattle.file_batch.specs.Words.{is_of_bytes};

use crate::listing::{lines_of_blocks, lines_of_frames, lines_of_replies, lines_of_reply_blocks};
use app_jobs::JobFault;
use app_reasons::FileKind;
use app_words::Form;
use file_batch::{BatchFault, read_batch, read_replies};
use file_blocks::{read_block_replies, read_blocks};
use file_devices::{Files, read_file};
use std::alloc::Global;

/// The lines of the file of this name, for people or of JSON: of a batch, of replies, of blocks or of replies of blocks, by the letters that
/// it begins with. The file is read alone. It fails with the first fault of the file; where a call on it fails; or where memory runs out.
pub fn show_file<F: Files>(
    alloc: Global,
    files: &F,
    form: Form,
    name: &str,
) -> Result<Vec<u8>, JobFault>
    ensures lines { IfOk result (λ text. IsShown (F.is_known files.now) (F.holds files.now) form name.now text.items) }
    ensures fault { IfErr result (IsShowFault (F.holds files.now) (F.failing files.now) name.now) }
{
    let bytes = read_file(alloc, files, name)?;
    match lines_of(alloc, form, &bytes) {
        Ok(text) => Ok(text),
        Err(fault) => Err(fault_of_showing(fault)),
    }
}

// Out of memory is the job's own fault.
fn fault_of_showing(fault: BatchFault) -> JobFault
    ensures { ((fault ≡ BatchFault.OutOfMemory) × (result ≡ JobFault.OutOfMemory)) ⊎ ((fault ≢ BatchFault.OutOfMemory) × (result ≡ JobFault.Batch fault)) }
{
    match fault {
        BatchFault::OutOfMemory => JobFault::OutOfMemory,
        other => JobFault::Batch(other),
    }
}

// Whether the text is this one.
fn is_same(text: &[u8], other: &[u8]) -> bool
    ensures { result ≡ bytes_eq text.now other.now }
{
    text == other
}

// The first four bytes, or all where there are fewer.
#[tactic(auto, using(std::proofs::lemmas::List::take_all))]
fn letters_of(bytes: &[u8]) -> &[u8]
    ensures { result.now ≡ take 4 bytes.now }
{
    if bytes.len() < 4 { bytes } else { &bytes[..4] }
}

// What begins with these letters.
fn kind_named(letters: &[u8]) -> FileKind
    ensures { result ≡ kind_named letters.now }
{
    if is_same(letters, b"I83R") {
        FileKind::Replies
    } else if is_same(letters, b"I83M") {
        FileKind::Blocks
    } else if is_same(letters, b"I83T") {
        FileKind::BlockReplies
    } else {
        FileKind::Batch
    }
}

// What the bytes are read as.
fn kind_of(bytes: &[u8]) -> FileKind
    ensures { result ≡ kind_of bytes.now }
{
    kind_named(letters_of(bytes))
}

// The lines of bytes, by what they begin as.
fn lines_of(alloc: Global, form: Form, bytes: &[u8]) -> Result<Vec<u8>, BatchFault>
    ensures lines { IfOk result (λ text. AreLinesAs form (kind_of bytes.now) bytes.now text.items) }
    ensures fault { IfErr result (λ fault. fault ≢ BatchFault.OutOfMemory → IsTrue (is_of_bytes fault) × FailsAs (kind_of bytes.now) bytes.now fault) }
{
    match kind_of(bytes) {
        FileKind::Batch => of_batch(alloc, form, bytes),
        FileKind::Replies => of_replies(alloc, form, bytes),
        FileKind::Blocks => of_blocks(alloc, form, bytes),
        FileKind::BlockReplies => of_block_replies(alloc, form, bytes),
    }
}

// The lines of a batch.
fn of_batch(alloc: Global, form: Form, bytes: &[u8]) -> Result<Vec<u8>, BatchFault>
    ensures lines { IfOk result (λ text. AreLinesAs form Batch bytes.now text.items) }
    ensures fault { IfErr result (λ fault. fault ≢ BatchFault.OutOfMemory → IsTrue (is_of_bytes fault) × FailsAs Batch bytes.now fault) }
{
    let mut input = bytes;
    let frames = read_batch(alloc, &mut input)?;
    Ok(lines_of_frames(alloc, form, None, &frames)?)
}

// The lines of replies.
fn of_replies(alloc: Global, form: Form, bytes: &[u8]) -> Result<Vec<u8>, BatchFault>
    ensures lines { IfOk result (λ text. AreLinesAs form Replies bytes.now text.items) }
    ensures fault { IfErr result (λ fault. fault ≢ BatchFault.OutOfMemory → IsTrue (is_of_bytes fault) × FailsAs Replies bytes.now fault) }
{
    let mut input = bytes;
    let replies = read_replies(alloc, &mut input)?;
    Ok(lines_of_replies(alloc, form, None, &replies)?)
}

// The lines of blocks.
fn of_blocks(alloc: Global, form: Form, bytes: &[u8]) -> Result<Vec<u8>, BatchFault>
    ensures lines { IfOk result (λ text. AreLinesAs form Blocks bytes.now text.items) }
    ensures fault { IfErr result (λ fault. fault ≢ BatchFault.OutOfMemory → IsTrue (is_of_bytes fault) × FailsAs Blocks bytes.now fault) }
{
    let mut input = bytes;
    let blocks = read_blocks(alloc, &mut input)?;
    Ok(lines_of_blocks(alloc, form, &blocks)?)
}

// The lines of the replies of blocks.
fn of_block_replies(alloc: Global, form: Form, bytes: &[u8]) -> Result<Vec<u8>, BatchFault>
    ensures lines { IfOk result (λ text. AreLinesAs form BlockReplies bytes.now text.items) }
    ensures fault { IfErr result (λ fault. fault ≢ BatchFault.OutOfMemory → IsTrue (is_of_bytes fault) × FailsAs BlockReplies bytes.now fault) }
{
    let mut input = bytes;
    let blocks = read_block_replies(alloc, &mut input)?;
    Ok(lines_of_reply_blocks(alloc, form, &blocks)?)
}
