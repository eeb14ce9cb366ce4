ghost use Rattle.iso_laws.specs.Spelling.{Texts};
ghost use Rattle.message_text.specs.Values.{IsValueOf};

use crate::element_value::ElementValue;
use iso_laws::Element;
use iso_shown::CardNumbers;

/// What has elements: a message or a reply.
pub(crate) trait HasElements {
    // The texts of its elements.
    ghost texts: { Self → Texts };

    /// The value of an element, if it is there.
    fn value(&self, cards: CardNumbers, element: Element) -> Option<ElementValue<'_>>
        ensures { IsValueOf cards element (texts self.now element) result };
}
