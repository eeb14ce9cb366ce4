ghost use Rattle.std.specs.Prelude.{◌≡◌, ◌≢◌, Some, None, IfSome, IfNone, IsTrue, IsFalse};
ghost use Rattle.message_text.specs.Givens.{texts_of};

use iso_laws::Element;

/// An element that is given, and its text.
#[derive(Drop)]
pub struct Given {
    /// The element.
    pub element: Element,
    /// Its text, without the length that may stand before it.
    pub text: Vec<u8>,
}

/// The text of an element among those that are given.
pub(crate) fn text_in(givens: &[Given], element: Element) -> Option<&[u8]>
    ensures found { IfSome result (λ text. texts_of givens.now element ≡ Some text.now) }
    ensures none { IfNone result (texts_of givens.now element ≡ None) }
{
    let mut rest = givens;
    while let Some((given, more)) = rest.split_first() {
        if given.element.number() == element.number() {
            return Some(given.text.as_slice());
        }
        rest = more;
    }
    None
}

/// Whether an element is among those that are given.
pub(crate) fn is_given(givens: &[Given], element: Element) -> bool
    ensures yes { IsTrue result → texts_of givens.now element ≢ None }
    ensures no { IsFalse result → texts_of givens.now element ≡ None }
{
    match text_in(givens, element) {
        Some(_) => true,
        None => false,
    }
}
