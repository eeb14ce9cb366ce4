ghost use Rattle.std.specs.Prelude.{◌≡◌, ◌≢◌, ◌∷◌, ◌++◌, List, ℕ, None, IfOk, IfErr, IfSome, IfNone, length, map, string_bytes};
ghost use Rattle.std.specs.List.{AllByRecursion};
ghost use Rattle.message_text.specs.Givens.{AreGiven, IsGivenBy, IsPair};
ghost use Rattle.message_text.specs.Made.{IsGivingFault, IsWordFault};

use crate::given::{Given, is_given};
use crate::make_fault::MakeFault;
use crate::names::element_named;
use crate::texts::text_of;
use iso_codec::is_text_of;
use memchr::memchr;
use std::alloc::Global;

// The name and the value of a word, with the first `=` between them.
fn pair_of(word: &[u8]) -> Option<(&[u8], &[u8])>
    ensures found { IfSome result (λ parts. IsPair word.now parts.0.now parts.1.now) }
    ensures none { IfNone result (AllByRecursion (λ c. c ≢ 61) word.now) }
{
    let end = memchr(b'=', word)?;
    Some((&word[..end], &word[end + 1..]))
}

// The element that the word at this place gives, with its text.
fn given_by(alloc: Global, place: usize, word: &[u8]) -> Result<Given, MakeFault>
    ensures given { IfOk result (IsGivenBy word.now) }
    ensures fault { IfErr result (IsWordFault place word.now) }
{
    let Some((name, value)) = pair_of(word) else {
        return Err(MakeFault::Word(place));
    };
    let Some(element) = element_named(name) else {
        return Err(MakeFault::Word(place));
    };
    let text = text_of(alloc, element, value)?;
    if !is_text_of(element, &text) {
        return Err(MakeFault::Value(element));
    }
    Ok(Given { element, text })
}

/// The elements that the words give.
pub(crate) fn givens_of(alloc: Global, words: &[String]) -> Result<Vec<Given>, MakeFault>
    ensures given { IfOk result (λ givens. AreGiven (map string_bytes words.now) givens.items) }
    ensures fault { IfErr result (IsGivingFault (map string_bytes words.now)) }
{
    let mut givens = Vec::new(alloc);
    let mut rest = words;
    let mut place = 0;
    while let Some((word, more)) = rest.split_first() {
        let given = given_by(alloc, place, word.as_bytes())?;
        if is_given(&givens, given.element) {
            return Err(MakeFault::Twice(given.element));
        }
        givens.push(given)?;
        rest = more;
        place += 1;
    }
    Ok(givens)
}
