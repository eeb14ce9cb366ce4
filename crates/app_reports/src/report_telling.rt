ghost use Rattle.std.specs.Prelude.{◌≡◌, ◌≢◌, ◌≤◌, ℕ, List, IfOk, IfErr, IsOk, OnErr};
ghost use Rattle.std.specs.Io.KnownBytes.{Appends};
ghost use Rattle.day_totals.specs.declared.day_totals.DayTotals.{DayTotals};
ghost use Rattle.day_totals.specs.Lines.{lines_of};
ghost use Rattle.day_totals.specs.Page.{page_of};
ghost use Rattle.file_devices.specs.Holding.{AreAsTheyWere, IsAsItWas};
ghost use Rattle.app_reports.specs.Report.{IsPage, IsReport, IsReportFault, IsSaid};

use crate::apart::check_page;
use crate::paging::put_page;
use crate::report_answering::report_of;
use crate::report_asking::ReportAsked;
use crate::report_fault::ReportFault;
use crate::report_help::{REPORT_HELP, USAGE};
use app_jobs::JobFault;
use app_reasons::{FileKind, FileUse, UsedFile, tell_with, words_of_used};
use app_words::{put, status_of};
use day_totals::{lines_of, page_of};
use file_devices::Files;
use std::alloc::Global;
use std::io::Write;

/// Does what is asked of `report` over these files, and returns the exit status: 0 done, 1 fault, 2 words that are no command, or a page
/// that would be written over the batch or the replies. What is asked for goes to `out`, a fault to `err`; what that doesn't take is
/// dropped. Other files than the page's are read alone.
pub fn answer_report<F: Files, O: Write, E: Write>(
    alloc: Global,
    files: &mut F,
    asked: &ReportAsked<'_>,
    out: &mut O,
    err: &mut E,
) -> u8
    ensures status { result ≤ 2 }
    ensures said { result ≡ 0 → IsSaid (F.is_known files.old) (F.holds files.old) (F.holds files.new) asked.now (O.contents out.old) (O.contents out.new) }
    ensures others { (name : List ℕ) → ¬ IsPage asked.now name → IsAsItWas (F.holds files.old) (F.holds files.new) name }
{
    match asked {
        ReportAsked::Day(batch, replies) => {
            let lines = lines_of_files(alloc, files, batch, replies);
            say(alloc, files, asked, lines, out, err)
        }
        ReportAsked::Page(batch, replies, page) => {
            let lines = page_of_files(alloc, files, batch, replies, page);
            say(alloc, files, asked, lines, out, err)
        }
        ReportAsked::Help => {
            let said = put(out, REPORT_HELP.as_bytes());
            status_of(said, err)
        }
        ReportAsked::Wrong => {
            let _ = err.write_all(USAGE.as_bytes());
            2
        }
    }
}

// Says lines or the fault that is there in place of them, and returns the exit status.
fn say<F: Files, O: Write, E: Write>(
    alloc: Global,
    files: &F,
    asked: &ReportAsked<'_>,
    lines: Result<Vec<u8>, ReportFault>,
    out: &mut O,
    err: &mut E,
) -> u8
    ensures status { result ≤ 2 }
    ensures said { result ≡ 0 → IfOk lines (λ text. Appends (O.contents out.old) (O.contents out.new) text.items) }
    ensures done { result ≡ 0 → IsOk lines }
{
    match lines {
        Ok(text) => {
            let said = put(out, &text);
            status_of(said, err)
        }
        Err(fault) => {
            tell(alloc, files, asked, &fault, err);
            fault.status()
        }
    }
}

// What is said of the day of these files.
fn lines_of_files<F: Files>(
    alloc: Global,
    files: &F,
    batch: &str,
    replies: &str,
) -> Result<Vec<u8>, ReportFault>
    ensures lines { IfOk result (λ text. (totals : DayTotals) × IsReport (F.is_known files.now) (F.holds files.now) batch.now replies.now totals
        × (text.items ≡ lines_of totals)) }
    ensures fault { IfErr result (IsReportFault (F.holds files.now) (F.failing files.now) batch.now replies.now) }
{
    let totals = report_of(alloc, files, batch, replies)?;
    Ok(lines_of(alloc, &totals)?)
}

// The same, where a page of the day is put in the place of a name too.
fn page_of_files<F: Files>(
    alloc: Global,
    files: &mut F,
    batch: &str,
    replies: &str,
    page: &str,
) -> Result<Vec<u8>, ReportFault>
    ensures lines { IfOk result (λ text. (totals : DayTotals) × IsReport (F.is_known files.old) (F.holds files.old) batch.now replies.now totals
        × (text.items ≡ lines_of totals) × (F.is_known files.old → F.holds files.new page.now (page_of totals))) }
    ensures kept { OnErr result (AreAsTheyWere (F.holds files.old) (F.holds files.new)) }
    ensures others { (other : List ℕ) → other ≢ page.now → IsAsItWas (F.holds files.old) (F.holds files.new) other }
{
    check_page(files, batch, replies, page)?;
    // No other run writes the page until this ends.
    let _claim = match files.claim(page) {
        Ok(claim) => claim,
        Err(fault) => return Err(ReportFault::Job(JobFault::from(fault))),
    };
    let totals = report_of(alloc, files, batch, replies)?;
    let lines = lines_of(alloc, &totals)?;
    let html = page_of(alloc, &totals)?;
    put_page(alloc, files, page, &html)?;
    Ok(lines)
}

// Tells the fault, and behind it what is known of the file that has it, or which file has so many replies.
fn tell<F: Files, E: Write>(
    alloc: Global,
    files: &F,
    asked: &ReportAsked<'_>,
    fault: &ReportFault,
    err: &mut E,
) {
    match fault {
        ReportFault::Job(fault) => {
            let line = words_of_fault(alloc, files, asked, fault);
            tell_with(fault, line, err);
        }
        ReportFault::Replies(count) => {
            let _ = write!(err, "{fault}\n");
            if let ReportAsked::Day(_, replies) | ReportAsked::Page(_, replies, _) = asked {
                let _ = write!(
                    err,
                    "{replies}: it has {count} replies, and the batch another number of bodies\n"
                );
            }
        }
        ReportFault::OneFile(_) => tell_with(fault, None, err),
    }
}

// What is told of the first of the files that has the fault.
fn words_of_fault<F: Files>(
    alloc: Global,
    files: &F,
    asked: &ReportAsked<'_>,
    fault: &JobFault,
) -> Option<Vec<u8>> {
    let (batch, replies) = (
        FileUse::Bodies(FileKind::Batch),
        FileUse::Bodies(FileKind::Replies),
    );
    match asked {
        ReportAsked::Day(first, second) => words_of_used(
            alloc,
            files,
            &[UsedFile::new(first, batch), UsedFile::new(second, replies)],
            fault,
        ),
        ReportAsked::Page(first, second, page) => words_of_used(
            alloc,
            files,
            &[
                UsedFile::new(first, batch),
                UsedFile::new(second, replies),
                UsedFile::new(page, FileUse::Written),
            ],
            fault,
        ),
        _ => None,
    }
}
