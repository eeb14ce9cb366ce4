ghost use Rattle.std.specs.Prelude.{◌≡◌, ◌≤◌, ℕ, List, IfOk, IfErr, OnErr, Ok, Some, length, slice_get};
ghost use Rattle.sha2.specs.Sha256.{sha256};
ghost use Rattle.book_laws.specs.Reading.{IsAnswer, reading};
ghost use Rattle.file_devices.specs.Holding.{AreAsTheyWere, IsAsItWas};
ghost use Rattle.app_parts_folder.specs.Deciding.{IsDecidedText, IsDecidedFaultOf, made_texts};
ghost use Rattle.app_parts_folder.specs.Faults.{IsDecidingFault};
ghost use Rattle.app_parts_folder.specs.Joining.{IsPartDecided};
ghost use Rattle.app_parts_folder.specs.Names.{IsOfDecided};
ghost use Rattle.app_parts_folder.specs.Texts.{texts_of};
ghost use Rattle.app_parts_folder.specs.declared.parts_fault.PartsFault.TheVariants as PartsFault;

use app_jobs::JobFault;
use app_parts_folder::{
    NamedText, OpenPlan, PartDigests, PartFault, PartFile, PartsFault, check_written_apart,
    decided_text, digest_of, open_plan, open_planned, part_name, put_texts,
};
use book_json::read_book;
use book_text::write_book;
use file_batch::{BodyCount, decide_in_order};
use file_devices::Files;
use issuer_rules::Shipped;
use std::alloc::{AllocError, Global};
use std::sync::Wait;
use std::thread::Threads;

/// Decides a part of a folder, one message after another, and puts its replies, its new book and what says that they are of this plan into
/// the folder: all three, or after a fault none. Returns how many bodies the part has.
pub fn decide_part<R: Threads + Wait + Sync, F: Files>(
    rt: &R,
    alloc: Global,
    files: &mut F,
    folder: &str,
    part: u32,
) -> Result<BodyCount, PartsFault>
    ensures decided { IfOk result (λ count. IsPartDecided (F.is_known files.old) (F.holds files.old) (F.holds files.new) folder.now part count.bodies) }
    ensures fault { IfErr result (IsDecidingFault (F.is_known files.old) (F.holds files.old) (F.failing files.old) folder.now part) }
    ensures kept { OnErr result (AreAsTheyWere (F.holds files.old) (F.holds files.new)) }
    ensures others { (other : List ℕ) → ¬ IsOfDecided folder.now part other → IsAsItWas (F.holds files.old) (F.holds files.new) other }
    ensures known { F.is_known files.old → F.is_known files.new }
{
    let opened = open_plan(alloc, files, folder)?;
    let digests = digests_of_part(&opened, part)?;
    check_written_apart(alloc, files, folder, part)?;
    let book = open_planned(
        alloc,
        files,
        folder,
        part,
        PartFile::Book,
        &digests.book,
        PartFault::OtherBook,
    )?;
    let batch = open_planned(
        alloc,
        files,
        folder,
        part,
        PartFile::Batch,
        &digests.batch,
        PartFault::OtherBatch,
    )?;
    let decided = decide_bytes(rt, alloc, &book, &batch)?;
    let texts = texts_of_decided(
        alloc,
        folder,
        part,
        &opened.digest,
        decided.replies,
        decided.new_book,
    )?;
    put_texts(alloc, files, &texts)?;
    Ok(decided.count)
}

// What a part comes to.
#[derive(Drop)]
struct DecidedBytes {
    count: BodyCount,
    replies: Vec<u8>,
    new_book: Vec<u8>,
}

// The digests of the part of this number.
fn digests_of_part(opened: &OpenPlan, part: u32) -> Result<PartDigests, PartsFault>
    ensures ok { IfOk result (λ digests. slice_get opened.now.plan.digests.items part ≡ Some digests) }
    ensures fault { IfErr result (λ fault. (fault ≡ PartsFault.NoPart) × (length opened.now.plan.digests.items ≤ part)) }
{
    match opened.plan.digests.get(part as usize) {
        Some(digests) => Ok(*digests),
        None => Err(PartsFault::NoPart),
    }
}

// Decides a batch on a book, one message after another.
fn decide_bytes<R: Threads + Wait + Sync>(
    rt: &R,
    alloc: Global,
    book: &[u8],
    batch: &[u8],
) -> Result<DecidedBytes, JobFault>
    ensures decided { IfOk result (λ decided. IsDecidedText book.now batch.now decided.replies.items decided.new_book.items decided.count.bodies) }
    ensures fault { IfErr result (IsDecidedFaultOf book.now batch.now) }
{
    let book = match read_book(rt, alloc, book) {
        Ok(book) => book,
        Err(fault) => return Err(JobFault::Book(fault)),
    };
    let mut source = batch;
    let answered = match decide_in_order(rt, alloc, book, &mut source, &Shipped) {
        Ok(answered) => answered,
        Err(fault) => return Err(JobFault::Batch(fault)),
    };
    let new_book = write_book(alloc, &answered.decided.book)?;
    Ok(DecidedBytes {
        count: answered.decided.count,
        replies: answered.text,
        new_book,
    })
}

// The texts of a part's files.
fn texts_of_decided(
    alloc: Global,
    folder: &str,
    part: u32,
    plan: &[u8; 32],
    replies: Vec<u8>,
    new_book: Vec<u8>,
) -> Result<Vec<NamedText>, AllocError>
    ensures { IfOk result (λ texts. texts_of texts.items ≡ made_texts folder.now part plan.now replies.items new_book.items) }
{
    let of_replies = digest_of(&replies);
    let of_book = digest_of(&new_book);
    let decided = decided_text(alloc, part, plan, &of_replies, &of_book)?;
    let mut texts = Vec::new(alloc);
    texts.push(NamedText {
        name: part_name(alloc, folder, part, PartFile::Replies)?,
        text: replies,
    })?;
    texts.push(NamedText {
        name: part_name(alloc, folder, part, PartFile::NewBook)?,
        text: new_book,
    })?;
    texts.push(NamedText {
        name: part_name(alloc, folder, part, PartFile::Decided)?,
        text: decided,
    })?;
    Ok(texts)
}
