ghost use Rattle.std.specs.Prelude.{◌≡◌, ◌↔◌, ◌<◌, ◌≤◌, ◌++◌, length, Err, IfErr, IsTrue, OnOk, OnErr, All};
ghost use Rattle.std.specs.List.{AllByRecursion};
ghost use Rattle.file_laws.specs.BatchFault.{is_of_bytes};
ghost use Rattle.file_batch.specs.Device.{UsesDevice};
ghost use Rattle.file_laws.specs.Files.{IsBody, AreBodies, batch_text};
ghost use Rattle.file_batch.specs.Bodies.{bytes_of};
ghost use Rattle.file_batch.specs.Writing.{AppendsPart};

use crate::file_item::FileItem;
use crate::writing::{PIECE, add_framed, put_items};
use file_devices::Sink;
use file_laws::BatchFault;
use std::alloc::{AllocError, Global};

// Whether each body has 1 to 512 bytes.
fn are_bodies(bodies: &[Vec<u8>]) -> bool
    ensures { IsTrue result ↔ All (λ body. IsBody body.items) bodies.now }
{
    bodies.iter().all(|body| matches!(body.len(), 1..=512))
}

impl FileItem for Vec<u8> {
    ghost text = { λ body. body.items };

    ghost fits = { λ body. IsBody body.items };

    ghost holds = { λ _. Unit {0} };

    fn add(&self, out: &mut Vec<u8>, _memory: &mut Vec<u8>) -> Result<(), AllocError> {
        add_framed(out, self)
    }
}

/// Writes a batch file: `I83B`, version 1, the number of bodies, and each behind its length. After `Ok` the sink has
/// this text and nothing else. More than 65,536 bodies are `Count`, and else a body whose length is outside 1 to 512 is
/// `Length`, before the first byte. After another fault the sink has a beginning of the text. `Device` is the fault
/// exactly where a call of the sink failed; and memory can run out.
pub fn write_batch<W: Sink>(
    alloc: Global,
    bodies: &[Vec<u8>],
    sink: &mut W,
) -> Result<(), BatchFault>
    ensures device { UsesDevice W.is_known W.has_failed W.may_fail sink.old sink.new result }
    ensures bodies { OnOk result (AreBodies (bytes_of bodies.now)) }
    ensures ok { OnOk result (W.is_known sink.old → W.written sink.new ≡ W.written sink.old ++ batch_text (bytes_of bodies.now)) }
    ensures err { OnErr result (W.is_known sink.old → AppendsPart (W.written sink.old) (W.written sink.new) (batch_text (bytes_of bodies.now))) }
    ensures many { 65536 < length bodies.now → (result ≡ Err BatchFault.Count) × (sink.new ≡ sink.old) }
    ensures length { length bodies.now ≤ 65536 → ¬ AllByRecursion IsBody (bytes_of bodies.now) → (result ≡ Err BatchFault.Length) × (sink.new ≡ sink.old) }
    // Bodies that a file can have are not written for a device or memory alone.
    ensures fit { AreBodies (bytes_of bodies.now) → IfErr result (λ e. ¬ IsTrue (is_of_bytes e)) }
{
    if bodies.len() > 65_536 {
        return Err(BatchFault::Count);
    }
    if !are_bodies(bodies) {
        return Err(BatchFault::Length);
    }
    let mut out = Vec::with_capacity(alloc, PIECE)?;
    put_items(&mut out, &mut Vec::new(alloc), b"I83B", bodies, sink)
}
