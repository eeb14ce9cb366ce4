//! Laws of the spellings and of the first fault.

ghost use Rattle.std.specs.Prelude.{◌≡◌, ℕ, List, ◌++◌};
ghost use Rattle.iso8583.specs.declared.message.Message.{Message};
ghost use Rattle.iso8583.specs.declared.reply.Reply.{Reply};
ghost use Rattle.iso_laws.specs.Messages.{IsMessage, message_spelling};
ghost use Rattle.iso_laws.specs.Replies.{IsReply, reply_spelling};
ghost use Rattle.iso_laws.specs.declared.mti.Mti.{Mti};
ghost use Rattle.iso_laws.specs.Faults.{NamesTheLeastUnexpected, NamesTheLeastMissing, NamesTheFirstWrongElement, NamesAnElementBehindItsBitmap, NamesASecondaryBitmap, NamesAnUnknownType, NamesAShortHeader, NamesATrailingByte, NamesAByteBehindAMessage, NamesAByteBehindAReply};

/// No spelling of a message begins another's, so a text spells at most one message.
pub fn no_message_begins_another()
    ensures { (m n : Message) (x y : List ℕ) → IsMessage m → IsMessage n
        → message_spelling m ++ x ≡ message_spelling n ++ y → (m ≡ n) × (x ≡ y) }
{}

/// No spelling of a reply begins another's, so a text spells at most one reply.
pub fn no_reply_begins_another()
    ensures { (r s : Reply) (x y : List ℕ) → IsReply r → IsReply s
        → reply_spelling r ++ x ≡ reply_spelling s ++ y → (r ≡ s) × (x ≡ y) }
{}

/// Reading names the least element that is there and that the type never has; else, as unexpected, only one that
/// the rule of element 24 of a reversal or of element 39 of an 1110 forbids.
pub fn names_the_least_unexpected()
    ensures { (types : List Mti) → NamesTheLeastUnexpected types }
{}

/// Where the type may have each element that is there, reading names the least that it must have and that is absent;
/// else, as missing, only one that such a rule asks for.
pub fn names_the_least_missing()
    ensures { (types : List Mti) → NamesTheLeastMissing types }
{}

/// Where bit 1 is set and the eight bytes of the second bitmap are zeros, reading names it, whatever else is there or absent.
pub fn names_a_secondary_bitmap()
    ensures { (types : List Mti) → NamesASecondaryBitmap types }
{}

/// Reading names another type where the first four bytes are the text of no type of the list, and a short text
/// where there are fewer than four, or fewer than a bitmap's eight or sixteen behind a type of the list.
pub fn names_an_unknown_type()
    ensures unknown { (types : List Mti) → NamesAnUnknownType types }
    ensures short { (types : List Mti) → NamesAShortHeader types }
{}

/// Where type and bitmap are right, reading names the first element, from the left, that has a fault of its own. It ends too soon; its
/// length, a byte or its value is wrong; or it breaks the rule of element 24 of a reversal or of element 39 of an 1110.
pub fn names_the_first_wrong_element()
    ensures first { (types : List Mti) → NamesTheFirstWrongElement types }
    ensures behind { (types : List Mti) → NamesAnElementBehindItsBitmap types }
{}

/// Reading names a trailing byte where a whole text stands before it, as the spelling of a message or of a reply.
pub fn names_a_trailing_byte()
    ensures whole { (types : List Mti) → NamesATrailingByte types }
    ensures message { NamesAByteBehindAMessage }
    ensures reply { NamesAByteBehindAReply }
{}
