ghost use Rattle.std.specs.Prelude.{◌≡◌, ◌<◌, ◌≤◌, ◌^◌, ◌++◌, length, All, IfOk, OnOk};
ghost use Rattle.std.specs.List.{flat_map};
ghost use Rattle.app_parts_folder.specs.PlanTexts.{digests_text, plan_of, plan_text};

use crate::fields::add_number;
use crate::part_digests::PartDigests;
use crate::plan_file::PlanFile;
use std::alloc::{AllocError, Global};

/// The bytes of a plan's file. Each part's number is a byte. Memory can run out.
pub fn plan_text(alloc: Global, plan: &PlanFile) -> Result<Vec<u8>, AllocError>
    requires bytes { All (λ part. part < 256) plan.now.parts.items }
    requires parts { length plan.now.digests.items < 2 ^ 32 }
    requires messages { length plan.now.parts.items < 2 ^ 32 }
    ensures { IfOk result (λ text. text.items ≡ plan_text (plan_of plan.now)) }
{
    let mut text = Vec::new(alloc);
    text.extend_from_slice(b"I83P\x00\x01")?;
    add_number(&mut text, plan.digests.len() as u32)?;
    add_number(&mut text, plan.parts.len() as u32)?;
    text.extend_from_slice(&plan.rest)?;
    add_digests(&mut text, &plan.digests)?;
    add_parts(&mut text, &plan.parts)?;
    Ok(text)
}

// Appends the digests of parts.
fn add_digests(text: &mut Vec<u8>, digests: &[PartDigests]) -> Result<(), AllocError>
    ensures { OnOk result (text.new.items ≡ text.old.items ++ flat_map digests_text digests.now) }
{
    for one in digests {
        text.extend_from_slice(&one.book)?;
        text.extend_from_slice(&one.batch)?;
    }
    Ok(())
}

// Appends parts, a byte each.
fn add_parts(text: &mut Vec<u8>, parts: &[u32]) -> Result<(), AllocError>
    requires { All (λ part. part < 256) parts.now }
    ensures { OnOk result (text.new.items ≡ text.old.items ++ parts.now) }
{
    for part in parts {
        text.push(*part as u8)?;
    }
    Ok(())
}
