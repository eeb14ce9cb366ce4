ghost use Rattle.std.specs.Prelude.{◌≢◌, IfErr, OnOk};
ghost use Rattle.log_commands.specs.Faults.{IsApartFault, IsPairFault};
ghost use Rattle.log_commands.specs.Names.{AreApart, log_apart, names_of};

use crate::command_fault::CommandFault;
use crate::log_names::LogNames;
use file_devices::Files;
use std::alloc::Global;

/// Checks that what is written for a log is none of the other files.
pub(crate) fn check_names<F: Files>(
    alloc: Global,
    files: &F,
    names: &LogNames<'_>,
) -> Result<(), CommandFault>
    ensures apart { OnOk result (F.is_known files.now → AreApart (log_apart (names_of names.now))) }
    ensures fault { IfErr result (IsApartFault (F.is_known files.now) (log_apart (names_of names.now))) }
{
    let book = Named::new("BOOK", names.book);
    let log = Named::new("LOG", names.log);
    let replies = Named::new("REPLIES", names.replies);
    let new_book = Named::new("NEWBOOK", names.new_book);
    check_pair(alloc, files, &replies, &new_book)?;
    check_pair(alloc, files, &replies, &book)?;
    check_pair(alloc, files, &replies, &log)?;
    check_pair(alloc, files, &new_book, &book)?;
    check_pair(alloc, files, &new_book, &log)
}

// A name, and what it is called in the help.
#[derive(Drop)]
struct Named<'a> {
    role: &'a str,
    name: &'a str,
}

impl<'a> Named<'a> {
    ghost use Rattle.std.specs.Prelude.{◌≡◌};

    fn new(role: &'a str, name: &'a str) -> Named<'a>
        ensures { result.name.now ≡ name.now }
    {
        Named { role, name }
    }
}

// Checks that two names are of two files.
fn check_pair<F: Files>(
    alloc: Global,
    files: &F,
    first: &Named<'_>,
    second: &Named<'_>,
) -> Result<(), CommandFault>
    ensures apart { OnOk result (F.is_known files.now → first.now.name.now ≢ second.now.name.now) }
    ensures fault { IfErr result (IsPairFault (F.is_known files.now) first.now.name.now second.now.name.now) }
{
    if !files.is_one_file(first.name, second.name)? {
        return Ok(());
    }
    let (role, name) = (second.role, second.name);
    Err(CommandFault::Usage(format!(in alloc; "{} and {role} are one file: {name}", first.role)?))
}
