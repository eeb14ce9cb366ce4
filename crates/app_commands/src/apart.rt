ghost use Rattle.std.specs.Prelude.{◌≡◌, ◌≢◌, IfErr, OnOk, map, string_bytes};
ghost use Rattle.app_words.specs.Asked.{asked_of, names_of};
ghost use Rattle.app_commands.specs.Apart.{AreApart, IsApartFault, IsPairFault, batch_apart, journal_apart, made_apart, names_apart};

use crate::fault::Fault;
use app_words::Command;
use file_devices::{BatchNames, Files};
use std::alloc::Global;

/// Checks that the names of a command are of as many files as they have to be.
pub(crate) fn check_names<F: Files>(
    alloc: Global,
    files: &F,
    command: &Command,
) -> Result<(), Fault>
    ensures apart { OnOk result (F.is_known files.now → AreApart (names_apart (asked_of command.now))) }
    ensures fault { IfErr result (IsApartFault (F.is_known files.now) (names_apart (asked_of command.now))) }
{
    match command {
        Command::Serial { names, .. }
        | Command::Run { names, .. }
        | Command::Blocks { names, .. } => { check_batch(alloc, files, names) }
        Command::RunWithJournal { names, journal, .. } => {
            check_journal(alloc, files, names, journal.as_str())?;
            check_batch(alloc, files, names)
        }
        Command::Pack { texts, batch } => {
            check_made(alloc, files, &Named::new("BATCH", batch.as_str()), texts)
        }
        Command::PackBlocks { texts, blocks } => {
            check_made(alloc, files, &Named::new("BATCH", blocks.as_str()), texts)
        }
        _ => Ok(()),
    }
}

// A name, and what it is called in the help.
#[derive(Drop)]
struct Named<'a> {
    role: &'a str,
    name: &'a str,
}

impl<'a> Named<'a> {
    fn new(role: &'a str, name: &'a str) -> Named<'a>
        ensures { result.name.now ≡ name.now }
    {
        Named { role, name }
    }
}

// Checks the names of a batch's files.
fn check_batch<F: Files>(alloc: Global, files: &F, names: &BatchNames) -> Result<(), Fault>
    ensures apart { OnOk result (F.is_known files.now → AreApart (batch_apart (names_of names.now))) }
    ensures fault { IfErr result (IsApartFault (F.is_known files.now) (batch_apart (names_of names.now))) }
{
    let book = Named::new("BOOK", names.book.as_str());
    let batch = Named::new("the batch", names.batch.as_str());
    let replies = Named::new("REPLIES", names.replies.as_str());
    let new_book = Named::new("NEWBOOK", names.new_book.as_str());
    check_pair(alloc, files, &replies, &new_book)?;
    check_pair(alloc, files, &replies, &book)?;
    check_pair(alloc, files, &replies, &batch)?;
    check_pair(alloc, files, &new_book, &batch)
}

// Checks the name of a journal beside them.
fn check_journal<F: Files>(
    alloc: Global,
    files: &F,
    names: &BatchNames,
    journal: &str,
) -> Result<(), Fault>
    ensures apart { OnOk result (F.is_known files.now → AreApart (journal_apart (names_of names.now) journal.now)) }
    ensures fault { IfErr result (IsApartFault (F.is_known files.now) (journal_apart (names_of names.now) journal.now)) }
{
    let journal = Named::new("the journal", journal);
    check_pair(
        alloc,
        files,
        &journal,
        &Named::new("REPLIES", names.replies.as_str()),
    )?;
    check_pair(
        alloc,
        files,
        &journal,
        &Named::new("NEWBOOK", names.new_book.as_str()),
    )?;
    check_pair(
        alloc,
        files,
        &journal,
        &Named::new("BOOK", names.book.as_str()),
    )?;
    check_pair(
        alloc,
        files,
        &journal,
        &Named::new("the batch", names.batch.as_str()),
    )
}

// Checks that the file that is made of texts is none of them.
#[tactic(auto, using(crate::proofs::ApartSteps::one_more_apart, crate::proofs::ApartSteps::behind_fault, crate::proofs::ApartSteps::first_fault))]
fn check_made<F: Files>(
    alloc: Global,
    files: &F,
    made: &Named<'_>,
    texts: &[String],
) -> Result<(), Fault>
    ensures apart { OnOk result (F.is_known files.now → AreApart (made_apart made.now.name.now (map string_bytes texts.now))) }
    ensures fault { IfErr result (IsApartFault (F.is_known files.now) (made_apart made.now.name.now (map string_bytes texts.now))) }
{
    let mut rest = texts;
    while let Some((text, more)) = rest.split_first() {
        check_pair(alloc, files, made, &Named::new("TEXT", text.as_str()))?;
        rest = more;
    }
    Ok(())
}

// Checks that two names are of two files.
fn check_pair<F: Files>(
    alloc: Global,
    files: &F,
    first: &Named<'_>,
    second: &Named<'_>,
) -> Result<(), Fault>
    ensures apart { OnOk result (F.is_known files.now → first.now.name.now ≢ second.now.name.now) }
    ensures fault { IfErr result (IsPairFault (F.is_known files.now) first.now.name.now second.now.name.now) }
{
    if !files.is_one_file(first.name, second.name)? {
        return Ok(());
    }
    let (role, name) = (second.role, second.name);
    Err(Fault::Usage(format!(in alloc; "{} and {role} are one file: {name}", first.role)?))
}
