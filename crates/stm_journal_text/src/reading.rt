//! Reading a journal.

ghost use Rattle.std.specs.Prelude.{◌≡◌, ◌≢◌, ◌⊎◌, ℕ, List, ◌++◌, IfOk, IfErr, IfSome, IfNone};
ghost use Rattle.stm_journal_text.specs.Journal.{entry_text, line_of, journal_text, IsEntry, AreEntries, BeginsWithNoLine, IsFirstWrongLine};
ghost use Rattle.stm_journal_text.specs.declared.entry.Entry.{Entry};

use crate::entry::Entry;
use crate::events::event_of;
use crate::fields::{number_of, parted};
use crate::replay_fault::ReplayFault;
use std::alloc::Global;
use stm_core_laws::Seat;

/// The entry that is written so, without its line feed.
fn entry_of(line: &[u8]) -> Option<Entry>
    ensures found { IfSome result (λ e. IsEntry e × (line.now ≡ entry_text e)) }
    ensures none { IfNone result ((e : Entry) → IsEntry e → line.now ≢ entry_text e) }
{
    let (seat, event) = parted(line, b' ')?;
    Some(Entry {
        seat: Seat::new(number_of(seat)?)?,
        event: event_of(event)?,
    })
}

/// The entry whose line the text begins with, and what follows.
fn first_entry(text: &[u8]) -> Option<(Entry, &[u8])>
    ensures found { IfSome result (λ first. IsEntry first.0 × (text.now ≡ line_of first.0 ++ first.1.now)) }
    ensures none { IfNone result (BeginsWithNoLine text.now) }
{
    let (line, rest) = parted(text, b'\n')?;
    Some((entry_of(line)?, rest))
}

/// The entries of a journal. For a text that is none the fault is `Line` with its first line that is no entry's, from 1; a last piece
/// without its line feed is such a line. The fault is never `Unlogged`; and memory can run out.
pub fn read_journal(alloc: Global, text: &[u8]) -> Result<Vec<Entry>, ReplayFault>
    ensures entries { IfOk result (λ entries. AreEntries entries.items) }
    ensures ok { IfOk result (λ entries. journal_text entries.items ≡ text.now) }
    ensures line { IfErr result (λ fault. (n : ℕ) → fault ≡ ReplayFault.Line n → IsFirstWrongLine text.now n) }
    ensures logged { IfErr result (λ fault. (n : ℕ) → fault ≢ ReplayFault.Unlogged n) }
    // So the text of a journal is always read, unless memory runs out, and the first wrong line of any other is found.
    ensures read { (entries : List Entry) → AreEntries entries → text.now ≡ journal_text entries → IfErr result (λ fault. fault ≡ ReplayFault.OutOfMemory) }
    // Memory is asked for only behind an entry's line.
    ensures memory { IfErr result (λ fault. fault ≡ ReplayFault.OutOfMemory → ¬ BeginsWithNoLine text.now) }
    ensures exact { (n : ℕ) → IsFirstWrongLine text.now n → (result ≡ Err (ReplayFault.Line n)) ⊎ (result ≡ Err ReplayFault.OutOfMemory) }
{
    let mut entries = Vec::new(alloc);
    let mut rest = text;
    while !rest.is_empty() {
        let Some((entry, more)) = first_entry(rest) else {
            return Err(ReplayFault::Line(entries.len() + 1));
        };
        entries.push(entry)?;
        rest = more;
    }
    Ok(entries)
}
