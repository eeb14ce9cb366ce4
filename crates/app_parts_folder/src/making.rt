//! The files of parts, as texts.

ghost use Rattle.std.specs.Prelude.{◌≡◌, ◌+◌, ◌<◌, ◌≤◌, ◌^◌, ◌∷◌, [], ◌++◌, All, IfOk, IfSome, Ok, OnOk, length, string_bytes};
ghost use Rattle.sha2.specs.Sha256.{sha256};
ghost use Rattle.book_laws.specs.Reading.{reading};
ghost use Rattle.std.specs.Thread.{IsSync};
ghost use Rattle.parts_books.specs.PartBooks.{each_part, rest_rows};
ghost use Rattle.app_parts_folder.specs.Making.{AreMade, AreMadeFrom, IsMade};
ghost use Rattle.app_parts_folder.specs.PlanTexts.{plan_text};
ghost use Rattle.app_parts_folder.specs.Names.{part_name, plan_name, rest_name};
ghost use Rattle.app_parts_folder.specs.Parting.{AreReadBack, count_of_part, folder_texts, rest_of};
ghost use Rattle.app_parts_folder.specs.Texts.{texts_of};
ghost use Rattle.app_parts_folder.specs.declared.part_file.PartFile.TheVariants as PartFile;

use crate::batch_in_parts::BatchInParts;
use crate::bodies::{batch_text, bodies_of_part};
use crate::named_text::NamedText;
use crate::names::{part_name, plan_name, rest_name};
use crate::part_count::PartCount;
use crate::part_digests::PartDigests;
use crate::part_file::PartFile;
use crate::plan_file::PlanFile;
use crate::plan_writing::plan_text;
use crate::reading::digest_of;
use book_text::write_book;
use parts_books::{part_book, rest_book};
use std::alloc::{AllocError, Global};
use std::thread;
use std::thread::Threads;

// What is made of some parts.
#[derive(Drop)]
struct MadeParts {
    texts: Vec<NamedText>,
    digests: Vec<PartDigests>,
    counts: Vec<PartCount>,
}

// What is made of one.
#[derive(Drop)]
struct OnePart {
    book: Vec<u8>,
    batch: Vec<u8>,
    digests: PartDigests,
    count: PartCount,
}

/// All files of the folder of a batch in parts, and how much each part has. Each part is made on a thread of its own where one can be
/// started. It fails only where memory runs out.
pub fn make_folder<R: Threads + Sync>(
    rt: &R,
    alloc: Global,
    folder: &str,
    batch: &BatchInParts,
) -> Result<(Vec<NamedText>, Vec<PartCount>), AllocError>
    ensures texts { IfOk result (λ made. texts_of made.0.items ≡ folder_texts folder.now batch.now) }
    ensures counts { IfOk result (λ made. made.1.items ≡ each_part (count_of_part batch.now) batch.now.count) }
    ensures back { OnOk result (AreReadBack batch.now) }
{
    let (made, rest) = make_all(rt, alloc, folder, batch)?;
    let MadeParts {
        texts,
        digests,
        counts,
    } = made;
    let plan = plan_bytes(alloc, &rest, digests, batch.plan.parts())?;
    let texts = with_rest(alloc, folder, texts, rest, plan)?;
    Ok((texts, counts))
}

// Adds a text.
fn push_text(texts: &mut Vec<NamedText>, name: String, text: Vec<u8>) -> Result<(), AllocError>
    ensures { OnOk result (texts_of texts.new.items ≡ texts_of texts.old.items ++ record { name = string_bytes name; text = text.items } ∷ []) }
{
    let one = NamedText { name, text };
    texts.push(one)?;
    Ok(())
}

// Texts with those of the rest and of the plan behind them.
fn with_rest(
    alloc: Global,
    folder: &str,
    texts: Vec<NamedText>,
    rest: Vec<u8>,
    plan: Vec<u8>,
) -> Result<Vec<NamedText>, AllocError>
    ensures { IfOk result (λ all. texts_of all.items ≡ texts_of texts.items
        ++ record { name = rest_name folder.now; text = rest.items } ∷ record { name = plan_name folder.now; text = plan.items } ∷ []) }
{
    let mut all = texts;
    let name = rest_name(alloc, folder)?;
    push_text(&mut all, name, rest)?;
    let name = plan_name(alloc, folder)?;
    push_text(&mut all, name, plan)?;
    Ok(all)
}

// All parts, and meanwhile the text of the rest's book.
fn make_all<R: Threads + Sync>(
    rt: &R,
    alloc: Global,
    folder: &str,
    batch: &BatchInParts,
) -> Result<(MadeParts, Vec<u8>), AllocError>
    ensures made { IfOk result (λ all. AreMade folder.now batch.now batch.now.count all.0) }
    ensures rest { IfOk result (λ all. all.1.items ≡ rest_of batch.now) }
    ensures back { OnOk result (reading (rest_of batch.now) ≡ Ok (rest_rows batch.now.rows batch.now.frames)) }
{
    let (made, rest) = thread::join(
        rt,
        || -> Result<MadeParts, AllocError>
            requires { IsSync R.row }
            ensures { IfOk result (AreMade folder.entry.now batch.entry.now batch.entry.now.count) }
        { make_parts(rt, alloc, folder, batch) },
        || -> Result<Vec<u8>, AllocError>
            ensures text { IfOk result (λ text. text.items ≡ rest_of batch.entry.now) }
            ensures back { OnOk result (reading (rest_of batch.entry.now) ≡ Ok (rest_rows batch.entry.now.rows batch.entry.now.frames)) }
        { rest_text(alloc, batch) },
    );
    Ok((made?, rest?))
}

// The text of the rest's book.
fn rest_text(alloc: Global, batch: &BatchInParts) -> Result<Vec<u8>, AllocError>
    ensures text { IfOk result (λ text. text.items ≡ rest_of batch.now) }
    ensures back { OnOk result (reading (rest_of batch.now) ≡ Ok (rest_rows batch.now.rows batch.now.frames)) }
{
    let rest = rest_book(alloc, &batch.book, &batch.frames)?;
    write_book(alloc, &rest)
}

// The bytes of a plan: of a rest of this text, parts of these digests, and so each message's part.
fn plan_bytes(
    alloc: Global,
    rest: &[u8],
    digests: Vec<PartDigests>,
    parts: &[u32],
) -> Result<Vec<u8>, AllocError>
    requires parts { All (λ part. part < 256) parts.now }
    requires few { length digests.items < 2 ^ 32 }
    requires messages { length parts.now < 2 ^ 32 }
    ensures { IfOk result (λ text. text.items ≡ plan_text (record { rest = sha256 rest.now; digests = digests.items; parts = parts.now })) }
{
    let mut own = Vec::with_capacity(alloc, parts.len())?;
    own.extend_from_slice(parts)?;
    let rest = digest_of(rest);
    let plan = PlanFile {
        rest,
        digests,
        parts: own,
    };
    plan_text(alloc, &plan)
}

// The texts of each part's files.
fn make_parts<R: Threads + Sync>(
    rt: &R,
    alloc: Global,
    folder: &str,
    batch: &BatchInParts,
) -> Result<MadeParts, AllocError>
    ensures { IfOk result (AreMade folder.now batch.now batch.now.count) }
{
    let mut made = MadeParts {
        texts: Vec::new(alloc),
        digests: Vec::new(alloc),
        counts: Vec::new(alloc),
    };
    let mut ones = make_each(rt, alloc, batch)?.into_iter();
    for part in 0..batch.plan.count() {
        let Some(Some(one)) = ones.next() else {
            return Err(AllocError);
        };
        made.add(alloc, folder, batch, part, one)?;
    }
    Ok(made)
}

// What is made of each part, or `None` of one for which memory ran out.
fn make_each<R: Threads + Sync>(
    rt: &R,
    alloc: Global,
    batch: &BatchInParts,
) -> Result<Vec<Option<OnePart>>, AllocError>
    ensures { IfOk result (λ ones. AreMadeFrom batch.now 0 ones.items) }
{
    let count = batch.plan.count() as usize;
    thread::map_indices(
        rt,
        alloc,
        count,
        &|part| -> Option<OnePart>
            requires { part < 2 ^ 32 }
            ensures { IfSome result (IsMade batch.entry.now part) }
        { make_part(alloc, batch, part as u32).ok() },
    )
}

impl MadeParts {
    // Adds the next part.
    fn add(
        &mut self,
        alloc: Global,
        folder: &str,
        batch: &BatchInParts,
        part: u32,
        one: OnePart,
    ) -> Result<(), AllocError>
        requires made { AreMade folder.now batch.now part self.old }
        requires next { IsMade batch.now part one }
        ensures { OnOk result (AreMade folder.now batch.now (part + 1) self.new) }
    {
        let _ = batch;
        self.digests.push(one.digests)?;
        self.counts.push(one.count)?;
        push_part(alloc, folder, part, one, &mut self.texts)?;
        Ok(())
    }
}

// Adds the texts of a part.
fn push_part(
    alloc: Global,
    folder: &str,
    part: u32,
    one: OnePart,
    texts: &mut Vec<NamedText>,
) -> Result<(), AllocError>
    ensures { OnOk result (texts_of texts.new.items ≡ texts_of texts.old.items
        ++ record { name = part_name folder.now part PartFile.Book; text = one.book.items }
        ∷ record { name = part_name folder.now part PartFile.Batch; text = one.batch.items } ∷ []) }
{
    let OnePart { book, batch, .. } = one;
    let name = part_name(alloc, folder, part, PartFile::Book)?;
    push_text(texts, name, book)?;
    let name = part_name(alloc, folder, part, PartFile::Batch)?;
    push_text(texts, name, batch)
}

// What is told of a part.
fn make_part(alloc: Global, batch: &BatchInParts, part: u32) -> Result<OnePart, AllocError>
    ensures { IfOk result (IsMade batch.now part) }
{
    let parts = batch.plan.parts();
    let own = part_book(alloc, &batch.book, &batch.frames, parts, part)?;
    let bodies = bodies_of_part(alloc, parts, &batch.bodies, part)?;
    let count = PartCount {
        messages: bodies.len(),
        rows: own.len(),
    };
    let book = write_book(alloc, &own)?;
    let batch = batch_text(alloc, &bodies)?;
    let digests = PartDigests {
        book: digest_of(&book),
        batch: digest_of(&batch),
    };
    Ok(OnePart {
        book,
        batch,
        digests,
        count,
    })
}
