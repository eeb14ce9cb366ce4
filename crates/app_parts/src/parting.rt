ghost use Rattle.std.specs.Prelude.{◌≡◌, ℕ, List, IfOk, IfErr, OnErr, OnOk, Ok};
ghost use Rattle.book_laws.specs.Reading.{IsAnswer, reading};
ghost use Rattle.file_devices.specs.Holding.{AreAsTheyWere, IsAsItWas};
ghost use Rattle.app_jobs.specs.Faults.{IsBookFault};
ghost use Rattle.app_parts_folder.specs.Faults.{IsPartingFault};
ghost use Rattle.app_parts_folder.specs.Names.{IsOfFolder};
ghost use Rattle.app_parts_folder.specs.Parting.{IsParted, names_of};
ghost use Rattle.app_parts_folder.specs.Texts.{IsHeld};

use app_jobs::JobFault;
use app_parts_folder::{
    MostParts, PartCount, PartNames, PartsFault, check_outside, make_folder, plan_batch, put_texts,
    read_text,
};
use book_json::read_book;
use file_devices::Files;
use issuer_rows::Book;
use std::alloc::Global;
use std::sync::Wait;
use std::thread::Threads;

/// Puts a batch in at most so many parts on a book, no two of which may need the same row, and puts a book and a batch of each, the rest of
/// the book and the plan into the folder: all files, or after a fault none. Book and batch stay as they are. Returns how much each part
/// has.
pub fn part_files<R: Threads + Wait + Sync, F: Files>(
    rt: &R,
    alloc: Global,
    files: &mut F,
    names: &PartNames<'_>,
    most: MostParts,
) -> Result<Vec<PartCount>, PartsFault>
    ensures parted { IfOk result (λ counts. IsParted (F.is_known files.old) (F.holds files.old) (F.holds files.new) (names_of names.now) most counts.items) }
    ensures fault { IfErr result (IsPartingFault (F.is_known files.old) (F.holds files.old) (F.failing files.old) (names_of names.now)) }
    ensures kept { OnErr result (AreAsTheyWere (F.holds files.old) (F.holds files.new)) }
    ensures inputs { OnOk result (F.is_known files.old → IsAsItWas (F.holds files.old) (F.holds files.new) names.now.book.now
        × IsAsItWas (F.holds files.old) (F.holds files.new) names.now.batch.now) }
    ensures others { (other : List ℕ) → ¬ IsOfFolder names.now.folder.now other → IsAsItWas (F.holds files.old) (F.holds files.new) other }
    ensures known { F.is_known files.old → F.is_known files.new }
{
    let count = most.count();
    check_outside(alloc, files, names.folder, count, names.book, "BOOK")?;
    check_outside(alloc, files, names.folder, count, names.batch, "BATCH")?;
    let book = open_held(rt, alloc, files, names.book)?;
    let batch = read_text(alloc, files, names.batch)?;
    let planned = plan_batch(alloc, book, &batch, most)?;
    let (texts, counts) = make_folder(rt, alloc, names.folder, &planned)?;
    put_texts(alloc, files, &texts)?;
    Ok(counts)
}

// The book of the file of this name.
fn open_held<R: Threads + Wait + Sync, F: Files>(
    rt: &R,
    alloc: Global,
    files: &F,
    name: &str,
) -> Result<Book, JobFault>
    ensures book { IfOk result (λ book. (bytes : List ℕ) × IsHeld (F.is_known files.now) (F.holds files.now) name.now bytes × IsAnswer (reading bytes) (Ok book)) }
    ensures fault { IfErr result (IsBookFault (F.holds files.now) (F.failing files.now) name.now) }
{
    let text = read_text(alloc, files, name)?;
    match read_book(rt, alloc, &text) {
        Ok(book) => Ok(book),
        Err(fault) => Err(JobFault::Book(fault)),
    }
}
