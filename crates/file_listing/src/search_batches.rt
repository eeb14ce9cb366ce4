ghost use Rattle.std.specs.Prelude.{◌≡◌, List, Err, IsOk, IfOk, IfErr, IfSome, IfNone};
ghost use Rattle.issuer_rows.specs.declared.reply_body.ReplyBody.{ReplyBody};
ghost use Rattle.file_laws.specs.Reading.{bodies_of, batch_magic, replies_magic};
ghost use Rattle.file_laws.specs.Replies.{IsReplyFileOf, FailsAsReplies};
ghost use Rattle.file_listing.specs.Places.{IsWholeFile, IsBatchPlace, fault_of_batch};

use crate::batch_place::BatchPlace;
use crate::body_kind::BodyKind;
use crate::search_bodies::end_of_bodies;
use crate::search_heads::head;

// Where the first body begins.
const HEAD: usize = 10;

// Whether the file has this head and the bodies that it announces, and nothing behind them.
fn check_file(file: &[u8], magic: &[u8], kind: BodyKind) -> Result<(), BatchPlace>
    ensures ok { IfOk result (λ _. IsWholeFile magic.now kind file.now) }
    ensures err { IfErr result (IsBatchPlace magic.now kind file.now) }
{
    let count = match head(file, magic) {
        Ok(count) => count,
        Err(wrong) => return Err(BatchPlace::Head(wrong)),
    };
    let end = match end_of_bodies(file, HEAD, count, kind) {
        Ok(end) => end,
        Err(place) => return Err(BatchPlace::Body(place)),
    };
    if end < file.len() {
        return Err(BatchPlace::Behind(end, file.len() - end));
    }
    Ok(())
}

/// Where the first fault of a batch file stands, and what stands there; nothing where the file is a batch.
pub fn place_in_batch(file: &[u8]) -> Option<BatchPlace>
    ensures place { IfSome result (IsBatchPlace batch_magic BodyKind.Message file.now) }
    ensures fault { IfSome result (λ place. bodies_of batch_magic file.now ≡ Err (fault_of_batch place)) }
    ensures none { IfNone result (IsOk (bodies_of batch_magic file.now)) }
{
    match check_file(file, b"I83B", BodyKind::Message) {
        Ok(()) => None,
        Err(place) => Some(place),
    }
}

/// Where the first fault of a file of replies stands, and what stands there; nothing where the file is one.
pub fn place_in_replies(file: &[u8]) -> Option<BatchPlace>
    ensures place { IfSome result (IsBatchPlace replies_magic BodyKind.Reply file.now) }
    ensures fault { IfSome result (λ place. FailsAsReplies file.now (fault_of_batch place)) }
    ensures none { IfNone result ((replies : List ReplyBody) × IsReplyFileOf file.now replies) }
{
    match check_file(file, b"I83R", BodyKind::Reply) {
        Ok(()) => None,
        Err(place) => Some(place),
    }
}
