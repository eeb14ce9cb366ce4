ghost use Rattle.std.specs.Prelude.{◌≡◌, ◌≤◌};
ghost use Rattle.app_messages.specs.Unpacked.{IsSaid};

use crate::block_fault::BlockFault;
use crate::block_unpacking::unpack_block;
use crate::help::{UNPACK_HELP, UNPACK_USAGE};
use crate::unpack_asking::UnpackAsked;
use crate::unpacking::unpack;
use app_reasons::{FileKind, tell_of_file};
use app_words::{put, status_of};
use file_devices::Files;
use std::alloc::Global;
use std::io::Write;

/// Does what is asked of `unpack` over these files, which are read alone, and returns the exit status: 0 done, 1 fault, 2 words that are
/// no command, or no such block. What is asked for goes to `out`, a fault to `err`; what that doesn't take is dropped.
pub fn answer_unpack<F: Files, O: Write, E: Write>(
    alloc: Global,
    files: &F,
    asked: &UnpackAsked<'_>,
    out: &mut O,
    err: &mut E,
) -> u8
    ensures status { result ≤ 2 }
    ensures said { result ≡ 0 → IsSaid (F.is_known files.now) (F.holds files.now) asked.now (O.contents out.old) (O.contents out.new) }
{
    let said = match asked {
        UnpackAsked::Batch(batch) => match unpack(alloc, files, batch) {
            Ok(text) => put(out, &text),
            Err(fault) => {
                tell_of_file(alloc, files, batch, FileKind::Batch, &fault, err);
                return 1;
            }
        },
        UnpackAsked::Block(name, number) => match unpack_block(alloc, files, name, *number) {
            Ok(text) => put(out, &text),
            Err(fault) => {
                tell_of_blocks(alloc, files, name, &fault, err);
                return fault.status();
            }
        },
        UnpackAsked::Help => put(out, UNPACK_HELP.as_bytes()),
        UnpackAsked::Wrong => {
            let _ = err.write_all(UNPACK_USAGE.as_bytes());
            return 2;
        }
    };
    status_of(said, err)
}

// Tells the fault, and behind it what is known of the file, or how many blocks it has. What `err` doesn't take is dropped.
fn tell_of_blocks<F: Files, E: Write>(
    alloc: Global,
    files: &F,
    name: &str,
    fault: &BlockFault,
    err: &mut E,
) {
    match fault {
        BlockFault::Job(fault) => tell_of_file(alloc, files, name, FileKind::Blocks, fault, err),
        BlockFault::Number(count) => {
            let _ = write!(
                err,
                "{fault}\n{name}: it has {count} blocks, numbered from 0\n"
            );
        }
    }
}
