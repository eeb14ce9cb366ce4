//! Texts that are put into files: all of them, or none.

ghost use Rattle.std.specs.Prelude.{◌≡◌, ℕ, List, IfOk, IfErr, OnOk, OnErr, string_bytes};
ghost use Rattle.file_devices.specs.Holding.{AreAsTheyWere, IsAsItWas};
ghost use Rattle.app_jobs.specs.Faults.{IsPuttingFault, MayNotBePut};
ghost use Rattle.app_parts_folder.specs.Texts.{AreDistinct, AreHeld, IsNoneOf, IsPutFault, texts_of};
ghost use Rattle.app_parts_folder.specs.Writing.{AreWritten};

use crate::named_text::NamedText;
use app_jobs::{JobFault, written};
use file_batch::put_all;
use file_devices::{Files, Written};
use std::alloc::Global;

/// Puts texts into their files: all, or after a fault none. The files are claimed meanwhile.
pub fn put_texts<F: Files>(
    alloc: Global,
    files: &mut F,
    texts: &[NamedText],
) -> Result<(), JobFault>
    ensures held { OnOk result (F.is_known files.old → AreDistinct (texts_of texts.now) → AreHeld (F.holds files.new) (texts_of texts.now)) }
    ensures fault { IfErr result (IsPutFault (F.failing files.old) (texts_of texts.now)) }
    ensures kept { OnErr result (AreAsTheyWere (F.holds files.old) (F.holds files.new)) }
    ensures others { (other : List ℕ) → IsNoneOf other (texts_of texts.now) → IsAsItWas (F.holds files.old) (F.holds files.new) other }
    ensures known { F.is_known files.old → F.is_known files.new }
{
    let _claims = claim_texts(alloc, files, texts)?;
    let written = write_texts(alloc, files, texts)?;
    Ok(files.put_in_place(written)?)
}

// Claims the files of texts, to write them alone. They are claimed until the result is dropped.
fn claim_texts<F: Files>(
    alloc: Global,
    files: &F,
    texts: &[NamedText],
) -> Result<Vec<F::Claim>, JobFault>
    ensures fault { IfErr result (IsPutFault (F.failing files.now) (texts_of texts.now)) }
{
    let mut claims = Vec::with_capacity(alloc, texts.len())?;
    for text in texts {
        let claim = files.claim(text.name.as_str())?;
        claims.push(claim)?;
    }
    Ok(claims)
}

// Writes texts to files that can be put in their places.
fn write_texts<F: Files>(
    alloc: Global,
    files: &F,
    texts: &[NamedText],
) -> Result<Vec<Written<F::Output>>, JobFault>
    ensures written { IfOk result (λ all. AreWritten F.Output.is_known F.Output.written (F.is_known files.now) texts.now all.items) }
    ensures fault { IfErr result (IsPutFault (F.failing files.now) (texts_of texts.now)) }
{
    let mut all = Vec::new(alloc);
    for text in texts {
        let one = write_one(alloc, files, text)?;
        all.push(one)?;
    }
    Ok(all)
}

// Writes a text.
fn write_one<F: Files>(
    alloc: Global,
    files: &F,
    text: &NamedText,
) -> Result<Written<F::Output>, JobFault>
    ensures name { IfOk result (λ one. string_bytes one.name ≡ string_bytes text.now.name) }
    ensures text { IfOk result (λ one. F.is_known files.now → F.Output.is_known one.output × (F.Output.written one.output ≡ text.now.text.items)) }
    ensures fault { IfErr result (IsPuttingFault (MayNotBePut (F.failing files.now) (string_bytes text.now.name))) }
{
    let mut output = files.create(text.name.as_str())?;
    let Ok(()) = put_all(&mut output, &text.text) else {
        return Err(JobFault::Unwritable);
    };
    Ok(written(alloc, text.name.as_str(), output)?)
}
