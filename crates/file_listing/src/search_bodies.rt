ghost use Rattle.std.specs.Prelude.{◌≡◌, ◌≤◌, length, IfOk, IfErr, IsTrue, IsFalse};
ghost use Rattle.file_listing.specs.Places.{AreBodies, IsBodyAt, IsBodyOf, IsFramedAt, IsWrongBody, IsBodyPlace};
ghost use Rattle.file_listing.specs.declared.body_kind.BodyKind.{BodyKind};

use crate::body_kind::BodyKind;
use crate::body_place::BodyPlace;
use crate::search_fields::{field, short};
use crate::wrong_body::WrongBody;
use file_laws::reply_of;

// Whether the body is one of this kind.
fn is_body_of(kind: BodyKind, body: &[u8]) -> bool
    ensures yes { IsTrue result → IsBodyOf kind body.now }
    ensures no { IsFalse result → ¬ IsBodyOf kind body.now }
{
    match kind {
        BodyKind::Message => true,
        BodyKind::Reply => reply_of(body).is_some(),
    }
}

/// The body whose length begins at this byte.
#[tactic(auto, unfolding(file_laws::specs::Reading::length_at, file_laws::specs::Reading::body_at))]
pub(crate) fn body_at_byte(file: &[u8], at: usize) -> Result<&[u8], WrongBody>
    requires { at ≤ length file.now }
    ensures ok { IfOk result (λ body. IsFramedAt file.now at body.now) }
    ensures err { (kind : BodyKind) → IfErr result (IsWrongBody kind file.now at) }
{
    let Some(size) = short(file, at) else {
        return Err(WrongBody::Ends);
    };
    if size == 0 || size > 512 {
        return Err(WrongBody::Length(size));
    }
    match field(file, at + 2, usize::from(size)) {
        Some(body) => Ok(body),
        None => Err(WrongBody::Ends),
    }
}

// The byte behind the body whose length begins at this byte.
fn body_end(file: &[u8], at: usize, kind: BodyKind) -> Result<usize, WrongBody>
    requires { at ≤ length file.now }
    ensures ok { IfOk result (IsBodyAt kind file.now at) }
    ensures err { IfErr result (IsWrongBody kind file.now at) }
{
    let body = body_at_byte(file, at)?;
    if !is_body_of(kind, body) {
        return Err(WrongBody::NoReply);
    }
    Ok(at + 2 + body.len())
}

/// The byte behind so many bodies of this kind, the first of which begins at this byte, or the first of them that is wrong.
pub(crate) fn end_of_bodies(
    file: &[u8],
    at: usize,
    count: u32,
    kind: BodyKind,
) -> Result<usize, BodyPlace>
    requires { at ≤ length file.now }
    ensures ok { IfOk result (AreBodies kind file.now at count) }
    ensures count { IfErr result (λ place. place.of ≡ count) }
    ensures err { IfErr result (IsBodyPlace kind file.now at) }
{
    let mut end = at;
    for number in 0..count {
        match body_end(file, end, kind) {
            Ok(next) => end = next,
            Err(wrong) => {
                return Err(BodyPlace {
                    number,
                    of: count,
                    at: end,
                    wrong,
                });
            }
        }
    }
    Ok(end)
}
