//! What is told of a folder of parts whose plan is none, or whose files aren't those of the plan.

ghost use Rattle.std.specs.Prelude.{◌≡◌, ℕ, IfSome, string_bytes};
ghost use Rattle.app_parts.specs.Tells.{SaysOf, TellsOfFolder, TellsOfOther, parts_words};
ghost use Rattle.app_parts_folder.specs.Names.{part_name, plan_name};

use app_parts_folder::{
    PartFault, PartFile, PartsFault, behind_decided_head, digest_of, open_plan, part_name,
    plan_name, rest_name,
};
use app_reasons::line_of_words;
use file_devices::{Files, read_again};
use std::alloc::Global;

// Said of a file that another one names by its digest.
const OTHER_DIGEST: &str = "its digest isn't that of the plan";

/// The line on the file of a folder that has this fault, where there is one.
pub(crate) fn line_of_folder<F: Files>(
    alloc: Global,
    files: &F,
    folder: &str,
    fault: &PartsFault,
) -> Option<Vec<u8>>
    ensures { IfSome result (λ line. TellsOfFolder folder.now fault.now line.items) }
{
    match fault {
        PartsFault::NoPlan => line_of_plan(alloc, folder, "it is no plan of parts"),
        PartsFault::NoPart => line_of_no_part(alloc, files, folder),
        PartsFault::OtherRest => {
            let rest = rest_name(alloc, folder).ok()?;
            line_of_words(alloc, rest.as_str(), OTHER_DIGEST)
        }
        PartsFault::Replies => line_of_plan(
            alloc,
            folder,
            "its parts haven't as many replies as it has messages",
        ),
        PartsFault::Part(part, fault) => line_of_other(alloc, files, folder, *part, *fault),
        PartsFault::OneFile(_, _) | PartsFault::Job(_) => None,
    }
}

// Of the plan.
fn line_of_plan(alloc: Global, folder: &str, words: &str) -> Option<Vec<u8>>
    ensures { IfSome result (λ line. SaysOf (plan_name folder.now) words.now line.items) }
{
    let plan = plan_name(alloc, folder).ok()?;
    line_of_words(alloc, plan.as_str(), words)
}

// Of the plan, which has no part of a number that is asked for.
#[tactic(auto, using(std::proofs::lemmas::Option::IfSome_then))]
fn line_of_no_part<F: Files>(alloc: Global, files: &F, folder: &str) -> Option<Vec<u8>>
    ensures { IfSome result (λ line. (count : ℕ) × SaysOf (plan_name folder.now) (parts_words count) line.items) }
{
    let count = open_plan(alloc, files, folder).ok()?.plan.digests.len();
    let words = parts_words(alloc, count)?;
    line_of_plan(alloc, folder, words.as_str())
}

// How many parts a plan has.
fn parts_words(alloc: Global, count: usize) -> Option<String>
    ensures { IfSome result (λ words. string_bytes words ≡ parts_words count) }
{
    format!(in alloc; "it has {count} parts, numbered from 0").ok()
}

// Of a part's file that isn't the one that is to be there.
fn line_of_other<F: Files>(
    alloc: Global,
    files: &F,
    folder: &str,
    part: u32,
    fault: PartFault,
) -> Option<Vec<u8>>
    ensures { IfSome result (λ line. TellsOfOther folder.now part fault line.items) }
{
    match fault {
        PartFault::Unreadable => None,
        PartFault::OtherBook => {
            line_of_part_file(alloc, folder, part, PartFile::Book, OTHER_DIGEST)
        }
        PartFault::OtherBatch => {
            line_of_part_file(alloc, folder, part, PartFile::Batch, OTHER_DIGEST)
        }
        PartFault::OtherPlan => line_of_part_file(
            alloc,
            folder,
            part,
            PartFile::Decided,
            "it is of another plan, or of another part",
        ),
        PartFault::OtherFiles => {
            let file = other_file(alloc, files, folder, part)?;
            line_of_part_file(
                alloc,
                folder,
                part,
                file,
                "it isn't what was written when the part was decided",
            )
        }
    }
}

// Of a file of a part.
fn line_of_part_file(
    alloc: Global,
    folder: &str,
    part: u32,
    file: PartFile,
    words: &str,
) -> Option<Vec<u8>>
    ensures { IfSome result (λ line. SaysOf (part_name folder.now part file) words.now line.items) }
{
    let name = part_name(alloc, folder, part, file).ok()?;
    line_of_words(alloc, name.as_str(), words)
}

// Which of a part's replies and new book isn't the one whose digest stands in what says that the part is decided.
fn other_file<F: Files>(alloc: Global, files: &F, folder: &str, part: u32) -> Option<PartFile> {
    let plan = open_plan(alloc, files, folder).ok()?;
    let name = part_name(alloc, folder, part, PartFile::Decided).ok()?;
    let decided = read_again(alloc, files, name.as_str()).ok()??;
    let digests = behind_decided_head(alloc, part, &plan.digest, &decided).ok()??;
    let name = part_name(alloc, folder, part, PartFile::Replies).ok()?;
    let replies = read_again(alloc, files, name.as_str()).ok()??;
    if digests.starts_with(&digest_of(&replies)) {
        Some(PartFile::NewBook)
    } else {
        Some(PartFile::Replies)
    }
}
