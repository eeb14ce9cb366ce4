ghost use Rattle.std.specs.Prelude.{IfOk, IfErr, map, string_bytes};
ghost use Rattle.message_text.specs.Made.{IsMade, IsMakeFault};

use crate::make_fault::MakeFault;
use crate::spelling::spelling_of;
use crate::types::type_named;
use crate::words::givens_of;
use iso_codec::decode;
use std::alloc::Global;

/// The body of the message of a type, four digits, with the elements that words give, each a name and a value with `=` between them. It
/// fails where the type is none that is taken in; with the first word that names no element, gives one again, or has a value that the
/// element can't have; where the type may not have an element, or must have another one; or where memory runs out.
pub fn body_of_words(alloc: Global, kind: &str, words: &[String]) -> Result<Vec<u8>, MakeFault>
    ensures made { IfOk result (λ body. IsMade kind.now (map string_bytes words.now) body.items) }
    ensures fault { IfErr result (IsMakeFault kind.now (map string_bytes words.now)) }
{
    let Some(mti) = type_named(kind.as_bytes()) else {
        return Err(MakeFault::Kind);
    };
    let givens = givens_of(alloc, words)?;
    let body = spelling_of(alloc, mti, &givens)?;
    match decode(&body) {
        Ok(_) => Ok(body),
        Err(fault) => Err(MakeFault::Body(fault)),
    }
}
