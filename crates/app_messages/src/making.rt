ghost use Rattle.std.specs.Prelude.{◌≡◌, ◌≤◌, IfOk, map, string_bytes, ℕ, List};
ghost use Rattle.file_listing.specs.BodyLines.{body_line};
ghost use Rattle.message_text.specs.Made.{IsMade};
ghost use Rattle.app_messages.specs.Made.{IsMadeSaid};

use crate::help::{MAKE_HELP, MAKE_USAGE};
use crate::make_asking::MakeAsked;
use crate::make_words::MakeWords;
use app_words::{put, status_of};
use file_listing::line_of_body;
use message_text::{MakeFault, body_of_words};
use std::alloc::Global;
use std::io::Write;

// The line of the body of a message of this type, with the elements that the words give.
fn line_of_words(alloc: Global, kind: &str, words: &[String]) -> Result<Vec<u8>, MakeFault>
    ensures { IfOk result (λ line. (body : List ℕ) × IsMade kind.now (map string_bytes words.now) body × (line.items ≡ body_line body)) }
{
    let body = body_of_words(alloc, kind, words)?;
    Ok(line_of_body(alloc, &body)?)
}

/// Does what is asked of `make`, and returns the exit status: 0 done, 1 fault, 2 words that are no command or make no message. What is
/// asked for goes to `out`, a fault to `err`; what that doesn't take is dropped.
pub fn answer_make<O: Write, E: Write>(
    alloc: Global,
    asked: &MakeAsked<'_>,
    out: &mut O,
    err: &mut E,
) -> u8
    ensures status { result ≤ 2 }
    ensures said { result ≡ 0 → IsMadeSaid asked.now (O.contents out.old) (O.contents out.new) }
    ensures silent { result ≡ 2 → out.new ≡ out.old }
{
    let said = match asked {
        MakeAsked::Message(kind, words) => match line_of_words(alloc, kind, words) {
            Ok(line) => put(out, &line),
            Err(fault) => {
                let _ = write!(err, "{}\n", MakeWords { kind, fault });
                return status_of_fault(&fault);
            }
        },
        MakeAsked::Help => put(out, MAKE_HELP.as_bytes()),
        MakeAsked::Wrong => {
            let _ = err.write_all(MAKE_USAGE.as_bytes());
            return 2;
        }
    };
    status_of(said, err)
}

// 2 where the words make no message, 1 where memory ran out.
fn status_of_fault(fault: &MakeFault) -> u8
    ensures low { 1 ≤ result }
    ensures high { result ≤ 2 }
{
    match fault {
        MakeFault::OutOfMemory => 1,
        _ => 2,
    }
}
