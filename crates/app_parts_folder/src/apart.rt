ghost use Rattle.std.specs.Prelude.{◌≡◌, ◌≢◌, ◌⊎◌, IfErr, OnOk};
ghost use Rattle.app_parts_folder.specs.Apart.{IsNameFault, IsOneFileFault, IsOutside, IsOutsidePart, IsPairFault};
ghost use Rattle.app_parts_folder.specs.Faults.{IsOverParts};
ghost use Rattle.app_parts_folder.specs.Joining.{names_of};
ghost use Rattle.app_parts_folder.specs.Names.{IsOfPart, IsOfParts, IsOfRead, IsOverRead, part_name, plan_name, rest_name};

use crate::join_names::JoinNames;
use crate::names::{part_name, plan_name, rest_name};
use crate::part_file::PartFile;
use crate::parts_fault::PartsFault;
use file_devices::Files;
use std::alloc::Global;

/// Checks that a file of this name isn't one that is written for at most so many parts.
pub fn check_outside<F: Files>(
    alloc: Global,
    files: &F,
    folder: &str,
    most: u32,
    name: &str,
    role: &'static str,
) -> Result<(), PartsFault>
    ensures outside { OnOk result (F.is_known files.now → IsOutside folder.now most name.now) }
    ensures fault { IfErr result (IsOneFileFault (F.is_known files.now) folder.now name.now) }
{
    let plan = plan_name(alloc, folder)?;
    check_pair(files, name, plan.as_str(), role, "FOLDER/plan")?;
    let rest = rest_name(alloc, folder)?;
    check_pair(files, name, rest.as_str(), role, "FOLDER/rest.book")?;
    for part in 0..most {
        check_part(alloc, files, folder, part, name, role)?;
    }
    Ok(())
}

// The same of the files of a part.
fn check_part<F: Files>(
    alloc: Global,
    files: &F,
    folder: &str,
    part: u32,
    name: &str,
    role: &'static str,
) -> Result<(), PartsFault>
    ensures outside { OnOk result (F.is_known files.now → IsOutsidePart folder.now part name.now) }
    ensures fault { IfErr result (IsOneFileFault (F.is_known files.now) folder.now name.now) }
{
    check_file(alloc, files, folder, part, PartFile::Book, name, role)?;
    check_file(alloc, files, folder, part, PartFile::Batch, name, role)
}

/// Checks that neither replies nor new book are a file of the folder, which has so many parts.
pub fn check_outside_parts<F: Files>(
    alloc: Global,
    files: &F,
    names: &JoinNames<'_>,
    count: u32,
) -> Result<(), PartsFault>
    ensures outside { OnOk result (F.is_known files.now → ¬ IsOverParts (names_of names.now) count) }
    ensures fault { IfErr result (IsNameFault (F.is_known files.now) (IsOverParts (names_of names.now) count)) }
{
    check_no_file(alloc, files, names.folder, count, names.replies, "REPLIES")?;
    check_no_file(alloc, files, names.folder, count, names.new_book, "NEWBOOK")
}

// Checks that a file of this name is none of a folder of so many parts.
fn check_no_file<F: Files>(
    alloc: Global,
    files: &F,
    folder: &str,
    count: u32,
    name: &str,
    role: &'static str,
) -> Result<(), PartsFault>
    ensures outside { OnOk result (F.is_known files.now → ¬ IsOfParts folder.now count name.now) }
    ensures fault { IfErr result (IsNameFault (F.is_known files.now) (IsOfParts folder.now count name.now)) }
{
    let plan = plan_name(alloc, folder)?;
    check_pair(files, name, plan.as_str(), role, "FOLDER/plan")?;
    let rest = rest_name(alloc, folder)?;
    check_pair(files, name, rest.as_str(), role, "FOLDER/rest.book")?;
    for part in 0..count {
        check_no_file_of(alloc, files, folder, part, name, role)?;
    }
    Ok(())
}

// Checks that it is none of a part.
fn check_no_file_of<F: Files>(
    alloc: Global,
    files: &F,
    folder: &str,
    part: u32,
    name: &str,
    role: &'static str,
) -> Result<(), PartsFault>
    ensures outside { OnOk result (F.is_known files.now → ¬ IsOfPart folder.now part name.now) }
    ensures fault { IfErr result (IsNameFault (F.is_known files.now) (IsOfPart folder.now part name.now)) }
{
    check_file(alloc, files, folder, part, PartFile::Book, name, role)?;
    check_file(alloc, files, folder, part, PartFile::Batch, name, role)?;
    check_file(alloc, files, folder, part, PartFile::Replies, name, role)?;
    check_file(alloc, files, folder, part, PartFile::NewBook, name, role)?;
    check_file(alloc, files, folder, part, PartFile::Decided, name, role)
}

// Checks that it isn't this one.
fn check_file<F: Files>(
    alloc: Global,
    files: &F,
    folder: &str,
    part: u32,
    file: PartFile,
    name: &str,
    role: &'static str,
) -> Result<(), PartsFault>
    ensures apart { OnOk result (F.is_known files.now → name.now ≢ part_name folder.now part file) }
    ensures fault { IfErr result (IsPairFault (F.is_known files.now) name.now (part_name folder.now part file)) }
{
    let other = part_name(alloc, folder, part, file)?;
    check_pair(files, name, other.as_str(), role, file.role())
}

/// Checks that what a part comes to isn't put over a file from which it comes. By their names they are two, but one may be a link.
pub fn check_written_apart<F: Files>(
    alloc: Global,
    files: &F,
    folder: &str,
    part: u32,
) -> Result<(), PartsFault>
    ensures apart { OnOk result (F.is_known files.now → ¬ IsOverRead folder.now part) }
    ensures fault { IfErr result (IsNameFault (F.is_known files.now) (IsOverRead folder.now part)) }
{
    check_not_read(alloc, files, folder, part, PartFile::Replies)?;
    check_not_read(alloc, files, folder, part, PartFile::NewBook)?;
    check_not_read(alloc, files, folder, part, PartFile::Decided)
}

// Checks that this file of a part is none that is read to decide it.
fn check_not_read<F: Files>(
    alloc: Global,
    files: &F,
    folder: &str,
    part: u32,
    file: PartFile,
) -> Result<(), PartsFault>
    ensures apart { OnOk result (F.is_known files.now → ¬ IsOfRead folder.now part (part_name folder.now part file)) }
    ensures fault { IfErr result (IsNameFault (F.is_known files.now) (IsOfRead folder.now part (part_name folder.now part file))) }
{
    let name = part_name(alloc, folder, part, file)?;
    let plan = plan_name(alloc, folder)?;
    check_pair(
        files,
        name.as_str(),
        plan.as_str(),
        file.role(),
        "FOLDER/plan",
    )?;
    check_file(
        alloc,
        files,
        folder,
        part,
        PartFile::Book,
        name.as_str(),
        file.role(),
    )?;
    check_file(
        alloc,
        files,
        folder,
        part,
        PartFile::Batch,
        name.as_str(),
        file.role(),
    )
}

/// Checks that replies and new book are two files.
pub fn check_joined<F: Files>(files: &F, names: &JoinNames<'_>) -> Result<(), PartsFault>
    ensures apart { OnOk result (F.is_known files.now → (names_of names.now).replies ≢ (names_of names.now).new_book) }
    ensures fault { IfErr result (IsPairFault (F.is_known files.now) (names_of names.now).replies (names_of names.now).new_book) }
{
    check_pair(files, names.replies, names.new_book, "REPLIES", "NEWBOOK")
}

// Checks that two names are of two files.
fn check_pair<F: Files>(
    files: &F,
    first: &str,
    second: &str,
    role: &'static str,
    other: &'static str,
) -> Result<(), PartsFault>
    ensures apart { OnOk result (F.is_known files.now → first.now ≢ second.now) }
    ensures fault { IfErr result (IsPairFault (F.is_known files.now) first.now second.now) }
{
    if files.is_one_file(first, second)? {
        return Err(PartsFault::OneFile(role, other));
    }
    Ok(())
}
