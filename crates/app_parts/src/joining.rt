ghost use Rattle.std.specs.Prelude.{◌≡◌, ◌≢◌, ℕ, List, IfOk, IfErr, OnErr, OnOk, Ok, map};
ghost use Rattle.book_laws.specs.Reading.{reading};
ghost use Rattle.book_laws.specs.Text.{book_text};
ghost use Rattle.file_batch.specs.Words.{AreAsTheyWere, AreReplyBodies, IsAsItWas};
ghost use Rattle.parts_books.specs.PartBooks.{AreInArrivalOrder};
ghost use Rattle.app_parts.specs.Answers.{IsNoOrder, IsRest, IsRestFault};
ghost use Rattle.app_parts_folder.specs.Faults.{IsJoiningFault, IsOverFolder};
ghost use Rattle.app_parts_folder.specs.Joining.{IsJoined, joined_texts, names_of};
ghost use Rattle.app_parts_folder.specs.Texts.{texts_of};

use crate::answers::open_answers;
use app_jobs::JobFault;
use app_parts_folder::{
    JoinNames, NamedText, PartsFault, check_joined, check_outside_parts, digest_of, open_plan,
    put_texts, read_text, replies_text, rest_name,
};
use book_json::read_book;
use book_text::write_book;
use file_devices::Files;
use issuer_rows::{Book, ReplyBody};
use parts_books::{join_books, join_replies};
use std::alloc::{AllocError, Global};
use std::sync::Wait;
use std::thread::Threads;

/// Puts the parts of a folder together, and the replies to the whole batch in the order of arrival and the book behind it in place: both, or
/// after a fault none. A folder is refused where a part isn't decided, or by another plan, or another file is there than the plan or the
/// part's last file names. No file of the folder is written over. Returns how many replies there are.
pub fn join_parts<R: Threads + Wait + Sync, F: Files>(
    rt: &R,
    alloc: Global,
    files: &mut F,
    names: &JoinNames<'_>,
) -> Result<usize, PartsFault>
    ensures joined { IfOk result (IsJoined (F.is_known files.old) (F.holds files.old) (F.holds files.new) (names_of names.now)) }
    ensures outside { OnOk result (F.is_known files.old → ¬ IsOverFolder (F.holds files.old) (names_of names.now)) }
    ensures fault { IfErr result (IsJoiningFault (F.is_known files.old) (F.holds files.old) (F.failing files.old) (names_of names.now)) }
    ensures kept { OnErr result (AreAsTheyWere (F.holds files.old) (F.holds files.new)) }
    ensures others { (other : List ℕ) → other ≢ names.now.replies.now → other ≢ names.now.new_book.now → IsAsItWas (F.holds files.old) (F.holds files.new) other }
    ensures known { F.is_known files.old → F.is_known files.new }
{
    check_joined(files, names)?;
    let open = open_plan(alloc, files, names.folder)?;
    let count = open.plan.digests.len() as u32;
    check_outside_parts(alloc, files, names, count)?;
    let rest = open_rest(rt, alloc, files, names.folder, &open.plan.rest)?;
    let answers = open_answers(rt, alloc, files, names.folder, &open.digest, count)?;
    let replies = in_order(alloc, &open.plan.parts, &answers.replies)?;
    let book = join_books(&rest, &answers.books)?;
    let texts = joined_texts(alloc, names, &replies, &book)?;
    put_texts(alloc, files, &texts)?;
    Ok(replies.len())
}

// Opens the rest's book, which is to have this digest.
fn open_rest<R: Threads + Wait + Sync, F: Files>(
    rt: &R,
    alloc: Global,
    files: &F,
    folder: &str,
    digest: &[u8; 32],
) -> Result<Book, PartsFault>
    ensures rest { IfOk result (IsRest (F.is_known files.now) (F.holds files.now) folder.now digest.now) }
    ensures fault { IfErr result (IsRestFault (F.holds files.now) (F.failing files.now) folder.now digest.now) }
{
    let name = rest_name(alloc, folder)?;
    let bytes = read_text(alloc, files, name.as_str())?;
    let own = digest_of(&bytes);
    if own != *digest {
        return Err(PartsFault::OtherRest);
    }
    match read_book(rt, alloc, &bytes) {
        Ok(book) => Ok(book),
        Err(fault) => Err(PartsFault::Job(JobFault::Book(fault))),
    }
}

// The replies of all parts in the order of arrival.
fn in_order(
    alloc: Global,
    parts: &[u32],
    replies: &[Vec<ReplyBody>],
) -> Result<Vec<ReplyBody>, PartsFault>
    ensures order { IfOk result (λ all. AreInArrivalOrder parts.now (map (λ list. list.items) replies.now) all.items) }
    ensures fault { IfErr result (IsNoOrder parts.now (map (λ list. list.items) replies.now)) }
{
    match join_replies(alloc, parts, replies)? {
        Some(all) => Ok(all),
        None => Err(PartsFault::Replies),
    }
}

// What is written.
fn joined_texts(
    alloc: Global,
    names: &JoinNames<'_>,
    replies: &[ReplyBody],
    book: &Book,
) -> Result<Vec<NamedText>, AllocError>
    ensures texts { IfOk result (λ texts. texts_of texts.items ≡ joined_texts (names_of names.now) replies.now book.now) }
    ensures bodies { OnOk result (AreReplyBodies replies.now) }
    ensures back { OnOk result (reading (book_text book.now) ≡ Ok book.now) }
{
    let mut texts = Vec::new(alloc);
    texts.push(NamedText {
        name: String::from_str(alloc, names.replies)?,
        text: replies_text(alloc, replies)?,
    })?;
    texts.push(NamedText {
        name: String::from_str(alloc, names.new_book)?,
        text: write_book(alloc, book)?,
    })?;
    Ok(texts)
}
