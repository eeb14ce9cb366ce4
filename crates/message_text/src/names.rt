ghost use Rattle.std.specs.Prelude.{◌≡◌, None, IfNone};
ghost use Rattle.std.specs.Str.{bytes_eq};
ghost use Rattle.message_text.specs.Names.{element_named, element_numbered, name_of};
ghost use Rattle.iso_laws.specs.Elements.{elements};

use iso_laws::Element;

/// The word by which an element is named.
pub fn name_of(element: Element) -> &'static str
    ensures { result.now ≡ name_of element }
{
    match element {
        Element::Pan => "pan",
        Element::Processing => "processing",
        Element::Amount => "amount",
        Element::Transmission => "transmission",
        Element::Stan => "trace",
        Element::Stamp => "local-time",
        Element::Function => "function",
        Element::OriginalAmount => "original-amount",
        Element::Acquirer => "acquirer",
        Element::Retrieval => "reference",
        Element::Approval => "approval",
        Element::Action => "action",
        Element::Terminal => "terminal",
        Element::Currency => "currency",
        Element::Original => "original",
        Element::Account => "account",
    }
}

// Whether the word is this element's name.
fn is_name(element: Element, word: &[u8]) -> bool
    ensures { result ≡ bytes_eq word.now (name_of element) }
{
    word == name_of(element).as_bytes()
}

// The elements, in rising number.
const ELEMENTS: [Element; 16] = [
    Element::Pan,
    Element::Processing,
    Element::Amount,
    Element::Transmission,
    Element::Stan,
    Element::Stamp,
    Element::Function,
    Element::OriginalAmount,
    Element::Acquirer,
    Element::Retrieval,
    Element::Approval,
    Element::Action,
    Element::Terminal,
    Element::Currency,
    Element::Original,
    Element::Account,
];

/// All elements, in rising number.
pub fn elements() -> &'static [Element]
    ensures { result.now ≡ elements }
{
    &ELEMENTS
}

/// The element that the word names.
#[tactic(auto, unfolding(crate::specs::Names::named_among))]
pub fn element_named(word: &[u8]) -> Option<Element>
    ensures named { result ≡ element_named word.now }
    ensures none { IfNone result (element_named word.now ≡ None) }
{
    let mut rest = elements();
    while let Some((element, more)) = rest.split_first() {
        if is_name(*element, word) {
            return Some(*element);
        }
        rest = more;
    }
    None
}

/// The element of this number.
#[tactic(auto, unfolding(crate::specs::Names::numbered_among))]
pub fn element_numbered(number: u8) -> Option<Element>
    ensures { result ≡ element_numbered number }
{
    let mut rest = elements();
    while let Some((element, more)) = rest.split_first() {
        if element.number() == number {
            return Some(*element);
        }
        rest = more;
    }
    None
}
