ghost use Rattle.std.specs.Prelude.{◌≡◌, ◌≤◌, length, Err, IfOk, IfErr, IfSome};
ghost use Rattle.iso_laws.specs.Reading.{reading};
ghost use Rattle.iso_laws.specs.Types.{taken_in};
ghost use Rattle.file_listing.specs.Places.{IsMessageText, IsUnread};

use crate::search_bodies::body_at_byte;
use crate::search_heads::head;
use crate::unread_body::UnreadBody;
use iso_codec::decode;
use issuer_rows::FrameFault;

// Where the first body begins.
const HEAD: usize = 10;

// Why the body is no message.
fn check_message(body: &[u8]) -> Result<(), FrameFault>
    ensures message { IfOk result (λ _. IsMessageText body.now) }
    ensures fault { IfErr result (λ fault. reading taken_in body.now ≡ Err fault) }
{
    match decode(body) {
        Ok(_) => Ok(()),
        Err(fault) => match FrameFault::new(fault) {
            Some(fault) => Err(fault),
            None => unreachable!(),
        },
    }
}

/// The first body of a batch file that is no message. There is none where all before the first fault of the file are messages.
pub fn first_unread(file: &[u8]) -> Option<(UnreadBody, &[u8])>
    ensures { IfSome result (λ found. IsUnread file.now found.0 found.1.now) }
{
    let Ok(count) = head(file, b"I83B") else {
        return None;
    };
    let mut at = HEAD;
    for number in 0..count {
        let Ok(body) = body_at_byte(file, at) else {
            return None;
        };
        match check_message(body) {
            Ok(()) => at += 2 + body.len(),
            Err(fault) => return Some((UnreadBody { number, at, fault }, body)),
        }
    }
    None
}
