//! Reading events. Each reader takes the texts that are written of its values, and no other.

ghost use Rattle.std.specs.Prelude.{◌≡◌, ◌≢◌, ◌∷◌, ◌++◌, IfSome, IfNone, codes};
ghost use Rattle.stm_journal_text.specs.Marks.{Lacks};
ghost use Rattle.stm_journal_text.specs.Texts.{event_text, IsEvent};
ghost use Rattle.stm_journal_text.specs.declared.event.Event.{Event};

use crate::event::Event;
use crate::fields::{number_of, parted, version_of};
use crate::keys::key_of;

/// The event that is written by a letter alone.
fn lone_event_of(letter: &[u8]) -> Option<Event>
    requires { Lacks 32 letter.now }
    ensures found { IfSome result (λ e. IsEvent e × (letter.now ≡ event_text e)) }
    ensures none { IfNone result ((e : Event) → IsEvent e → letter.now ≢ event_text e) }
{
    match letter {
        b"n" => Some(Event::Claim),
        b"o" => Some(Event::ValidateOne),
        b"e" => Some(Event::EndValidation),
        b"k" => Some(Event::Commit),
        _ => None,
    }
}

/// The read that is written so behind its letter.
fn read_of(text: &[u8]) -> Option<Event>
    ensures found { IfSome result (λ e. IsEvent e × (codes "r " ++ text.now ≡ event_text e)) }
    ensures none { IfNone result ((e : Event) → IsEvent e → codes "r " ++ text.now ≢ event_text e) }
{
    let (version, key) = parted(text, b' ')?;
    Some(Event::Read(version_of(version)?, key_of(key)?))
}

/// The block that is written so behind its letter.
fn block_of(text: &[u8]) -> Option<Event>
    ensures found { IfSome result (λ e. IsEvent e × (codes "b " ++ text.now ≡ event_text e)) }
    ensures none { IfNone result ((e : Event) → IsEvent e → codes "b " ++ text.now ≢ event_text e) }
{
    let (version, index) = parted(text, b' ')?;
    Some(Event::Block(version_of(version)?, number_of(index)?))
}

/// The event that is written by a letter and a version, and what belongs to it.
fn event_of_version(letter: &[u8], rest: &[u8]) -> Option<Event>
    requires { Lacks 32 letter.now }
    ensures found { IfSome result (λ e. IsEvent e × (letter.now ++ 32 ∷ rest.now ≡ event_text e)) }
    ensures none { IfNone result ((e : Event) → IsEvent e → letter.now ++ 32 ∷ rest.now ≢ event_text e) }
{
    match letter {
        b"r" => read_of(rest),
        b"b" => block_of(rest),
        b"f" => Some(Event::Finish(version_of(rest)?)),
        b"c" => Some(Event::BeginValidation(version_of(rest)?)),
        _ => None,
    }
}

/// The event that is written so.
pub(crate) fn event_of(text: &[u8]) -> Option<Event>
    ensures found { IfSome result (λ e. IsEvent e × (text.now ≡ event_text e)) }
    ensures none { IfNone result ((e : Event) → IsEvent e → text.now ≢ event_text e) }
{
    match parted(text, b' ') {
        Some((letter, rest)) => event_of_version(letter, rest),
        None => lone_event_of(text),
    }
}
