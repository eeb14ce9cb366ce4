//! What decided parts come to, as their files hold it.

ghost use Rattle.std.specs.Prelude.{◌≡◌, ◌≢◌, ◌⊎◌, ℕ, List, IfErr, IfOk, OnOk, Ok, length};
ghost use Rattle.std.specs.Thread.{IsSync};
ghost use Rattle.sha2.specs.Sha256.{sha256};
ghost use Rattle.book_laws.specs.Reading.{IsAnswer, reading};
ghost use Rattle.file_laws.specs.Replies.{IsReplyFileOf};
ghost use Rattle.app_parts_folder.specs.PlanTexts.{decided_text};
ghost use Rattle.app_parts.specs.Answers.{HaveAnswers, IsNoAnswer, IsPartAnswer};
ghost use Rattle.app_parts_folder.specs.Joining.{Answer};
ghost use Rattle.app_parts_folder.specs.Opening.{IsDecidedFault};
ghost use Rattle.app_parts_folder.specs.Reading.{IsAnswerBytesFault};

use app_jobs::JobFault;
use app_parts_folder::{
    PartFault, PartFile, PartsFault, behind_decided_head, decided_text, digest_of, open_part_file,
};
use book_json::read_book;
use file_batch::read_replies;
use file_devices::Files;
use issuer_rows::{Book, ReplyBody};
use std::alloc::Global;
use std::sync::Wait;
use std::thread;
use std::thread::Threads;

/// What parts come to, in their order.
#[derive(Drop)]
pub(crate) struct Answers {
    /// Their replies.
    pub(crate) replies: Vec<Vec<ReplyBody>>,
    /// Their books.
    pub(crate) books: Vec<Book>,
}

// What a part comes to.
#[derive(Drop)]
struct PartAnswer {
    replies: Vec<ReplyBody>,
    book: Book,
}

/// Opens what each of so many parts of the plan of this digest comes to.
pub(crate) fn open_answers<R: Threads + Wait + Sync, F: Files>(
    rt: &R,
    alloc: Global,
    files: &F,
    folder: &str,
    plan: &[u8; 32],
    count: u32,
) -> Result<Answers, PartsFault>
    ensures answers { IfOk result (λ own. (answers : List Answer) × (length answers ≡ count)
        × HaveAnswers (F.is_known files.now) (F.holds files.now) folder.now plan.now own answers) }
    ensures fault { IfErr result (IsNoAnswer (F.holds files.now) (F.failing files.now) folder.now plan.now) }
{
    let mut replies = Vec::new(alloc);
    let mut books = Vec::new(alloc);
    for part in 0..count {
        let one = open_answer(rt, alloc, files, folder, plan, part)?;
        replies.push(one.replies)?;
        books.push(one.book)?;
    }
    Ok(Answers { replies, books })
}

// Opens what a part comes to.
fn open_answer<R: Threads + Wait + Sync, F: Files>(
    rt: &R,
    alloc: Global,
    files: &F,
    folder: &str,
    plan: &[u8; 32],
    part: u32,
) -> Result<PartAnswer, PartsFault>
    ensures answer { IfOk result (IsPartAnswer (F.is_known files.now) (F.holds files.now) folder.now plan.now part) }
    ensures fault { IfErr result (IsNoAnswer (F.holds files.now) (F.failing files.now) folder.now plan.now) }
{
    let replies = open_part_file(alloc, files, folder, part, PartFile::Replies)?;
    let book = open_part_file(alloc, files, folder, part, PartFile::NewBook)?;
    let decided = open_part_file(alloc, files, folder, part, PartFile::Decided)?;
    let (checked, answer) = check_and_read(rt, alloc, part, plan, &decided, &replies, &book);
    checked?;
    Ok(answer?)
}

// Checks that these bytes say that the part is decided under this plan, with these replies and this book, and reads the two meanwhile.
fn check_and_read<R: Threads + Wait + Sync>(
    rt: &R,
    alloc: Global,
    part: u32,
    plan: &[u8; 32],
    bytes: &[u8],
    replies: &[u8],
    book: &[u8],
) -> (Result<(), PartsFault>, Result<PartAnswer, JobFault>)
    ensures decided { OnOk result.0 (bytes.now ≡ decided_text part plan.now (sha256 replies.now) (sha256 book.now)) }
    ensures undecided { IfErr result.0 (IsDecidedFault part plan.now bytes.now replies.now book.now) }
    ensures replies { IfOk result.1 (λ own. IsReplyFileOf replies.now own.replies.items) }
    ensures book { IfOk result.1 (λ own. IsAnswer (reading book.now) (Ok own.book)) }
    ensures unread { IfErr result.1 (IsAnswerBytesFault replies.now book.now) }
{
    thread::join(
        rt,
        || -> Result<(), PartsFault>
            requires { IsSync R.row }
            ensures decided { OnOk result (bytes.entry.now ≡ decided_text part plan.entry.now (sha256 replies.entry.now) (sha256 book.entry.now)) }
            ensures undecided { IfErr result (IsDecidedFault part plan.entry.now bytes.entry.now replies.entry.now book.entry.now) }
        { check_decided(rt, alloc, part, plan, bytes, replies, book) },
        || -> Result<PartAnswer, JobFault>
            requires { IsSync R.row }
            ensures replies { IfOk result (λ own. IsReplyFileOf replies.entry.now own.replies.items) }
            ensures book { IfOk result (λ own. IsAnswer (reading book.entry.now) (Ok own.book)) }
            ensures unread { IfErr result (IsAnswerBytesFault replies.entry.now book.entry.now) }
        { read_answer(rt, alloc, replies, book) },
    )
}

// Checks that these bytes say that the part is decided under this plan, with these replies and this book.
fn check_decided<R: Threads + Sync>(
    rt: &R,
    alloc: Global,
    part: u32,
    plan: &[u8; 32],
    bytes: &[u8],
    replies: &[u8],
    book: &[u8],
) -> Result<(), PartsFault>
    ensures decided { OnOk result (bytes.now ≡ decided_text part plan.now (sha256 replies.now) (sha256 book.now)) }
    ensures fault { IfErr result (IsDecidedFault part plan.now bytes.now replies.now book.now) }
{
    if behind_decided_head(alloc, part, plan, bytes)?.is_none() {
        return Err(PartsFault::Part(part, PartFault::OtherPlan));
    }
    let (of_replies, of_book) = thread::join(
        rt,
        || -> [u8; 32]
            ensures { result ≡ sha256 replies.entry.now }
        { digest_of(replies) },
        || -> [u8; 32]
            ensures { result ≡ sha256 book.entry.now }
        { digest_of(book) },
    );
    let own = decided_text(alloc, part, plan, &of_replies, &of_book)?;
    if own.as_slice() != bytes {
        return Err(PartsFault::Part(part, PartFault::OtherFiles));
    }
    Ok(())
}

// The replies and the book of these bytes.
fn read_answer<R: Threads + Wait + Sync>(
    rt: &R,
    alloc: Global,
    replies: &[u8],
    book: &[u8],
) -> Result<PartAnswer, JobFault>
    ensures replies { IfOk result (λ own. IsReplyFileOf replies.now own.replies.items) }
    ensures book { IfOk result (λ own. IsAnswer (reading book.now) (Ok own.book)) }
    ensures fault { IfErr result (IsAnswerBytesFault replies.now book.now) }
{
    let mut source = replies;
    let replies = match read_replies(alloc, &mut source) {
        Ok(replies) => replies,
        Err(fault) => return Err(JobFault::Batch(fault)),
    };
    match read_book(rt, alloc, book) {
        Ok(book) => Ok(PartAnswer { replies, book }),
        Err(fault) => Err(JobFault::Book(fault)),
    }
}
