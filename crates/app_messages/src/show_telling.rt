ghost use Rattle.std.specs.Prelude.{◌≡◌, ◌≤◌};
ghost use Rattle.app_messages.specs.Shown.{IsSaid};

use crate::show_asking::ShowAsked;
use crate::show_help::{SHOW_JSON_HELP, USAGE};
use crate::showing::show_file;
use app_reasons::tell_of_any_file;
use app_words::{Form, put, status_of};
use file_devices::Files;
use std::alloc::Global;
use std::io::Write;

/// Does what is asked of `show` for JSON over these files, which are read alone, and returns the exit status: 0 done, 1 fault, 2 words that are
/// no command. What is asked for goes to `out`, a fault to `err`; what that doesn't take is dropped.
pub fn answer_show<F: Files, O: Write, E: Write>(
    alloc: Global,
    files: &F,
    asked: &ShowAsked<'_>,
    out: &mut O,
    err: &mut E,
) -> u8
    ensures status { result ≤ 2 }
    ensures said { result ≡ 0 → IsSaid (F.is_known files.now) (F.holds files.now) asked.now (O.contents out.old) (O.contents out.new) }
{
    let said = match asked {
        ShowAsked::File(name, cards) => match show_file(alloc, files, Form::Json(*cards), name) {
            Ok(text) => put(out, &text),
            Err(fault) => {
                tell_of_any_file(alloc, files, name, &fault, err);
                return 1;
            }
        },
        ShowAsked::Help => put(out, SHOW_JSON_HELP.as_bytes()),
        ShowAsked::Wrong => {
            let _ = err.write_all(USAGE.as_bytes());
            return 2;
        }
    };
    status_of(said, err)
}
