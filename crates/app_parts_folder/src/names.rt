ghost use Rattle.std.specs.Prelude.{◌≡◌, IfOk, string_bytes};
ghost use Rattle.app_parts_folder.specs.Names.{part_name, plan_name, rest_name};

use crate::part_file::PartFile;
use std::alloc::{AllocError, Global};

/// The name of a part's file.
pub fn part_name(
    alloc: Global,
    folder: &str,
    part: u32,
    file: PartFile,
) -> Result<String, AllocError>
    ensures { IfOk result (λ name. string_bytes name ≡ part_name folder.now part file) }
{
    let ending = file.ending();
    format!(in alloc; "{folder}/{part}{ending}")
}

/// The name of the plan's file.
pub fn plan_name(alloc: Global, folder: &str) -> Result<String, AllocError>
    ensures { IfOk result (λ name. string_bytes name ≡ plan_name folder.now) }
{
    format!(in alloc; "{folder}/plan")
}

/// The name of the file of the rest.
pub fn rest_name(alloc: Global, folder: &str) -> Result<String, AllocError>
    ensures { IfOk result (λ name. string_bytes name ≡ rest_name folder.now) }
{
    format!(in alloc; "{folder}/rest.book")
}
