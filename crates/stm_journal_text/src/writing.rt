//! Writing a journal.

ghost use Rattle.std.specs.Prelude.{◌≡◌, ◌+◌, ◌≤◌, ◌++◌, length, vec_len, vec_capacity, IfOk, OnOk, OnErr, IsOk};
ghost use Rattle.std.specs.Fmt.{decimal};
ghost use Rattle.hex.specs.Hex.{encode_lower};
ghost use Rattle.iso8583.specs.Padded.{HasPrintable};
ghost use Rattle.stm_journal_text.specs.Journal.{line_of, journal_text, IsEntry, AreEntries};
ghost use Rattle.stm_journal_text.specs.Texts.{version_text, identity_text, key_text, event_text, IsVersion, IsIdentity, IsKey, IsEvent};

use crate::entry::Entry;
use crate::event::Event;
use crate::hexadecimal::name_digits;
use iso8583::{AccountId, Identity};
use issuer_rows::RowKey;
use itoa::Buffer;
use std::alloc::{AllocError, Global};
use stm_memory::Version;

/// Bytes of capacity with which every key can be written without allocating. The longest has 61.
pub const KEY_ROOM: usize = 64;

/// Bytes of capacity with which every line can be written without allocating. The longest has 89.
const LINE_ROOM: usize = 128;

/// Appends the text.
fn put(out: &mut Vec<u8>, text: &[u8])
    requires { vec_len out.old + length text.now ≤ vec_capacity out.old }
    ensures items { out.new.items ≡ out.old.items ++ text.now }
    ensures len { vec_len out.new ≡ vec_len out.old + length text.now }
    ensures capacity { vec_capacity out.old ≤ vec_capacity out.new }
{
    let Ok(()) = out.extend_from_slice(text) else {
        unreachable!()
    };
}

/// Appends the number in decimal.
fn put_number(out: &mut Vec<u8>, number: u32)
    requires { vec_len out.old + 10 ≤ vec_capacity out.old }
    ensures items { out.new.items ≡ out.old.items ++ decimal number }
    ensures len { vec_len out.new ≤ vec_len out.old + 10 }
    ensures capacity { vec_capacity out.old ≤ vec_capacity out.new }
{
    let mut buffer = Buffer::new();
    put(out, buffer.format(number).as_bytes());
}

/// Appends the name of an account in hexadecimal.
fn put_account(out: &mut Vec<u8>, id: &AccountId)
    requires { vec_len out.old + 56 ≤ vec_capacity out.old }
    ensures items { out.new.items ≡ out.old.items ++ encode_lower id.now.0 }
    ensures name { HasPrintable 1 28 id.now.0 }
    ensures len { vec_len out.new ≤ vec_len out.old + 56 }
    ensures capacity { vec_capacity out.old ≤ vec_capacity out.new }
{
    let (digits, size) = name_digits(id);
    put(out, &digits[..size]);
}

/// Appends a version: its index and its incarnation.
fn put_version(out: &mut Vec<u8>, version: &Version)
    requires { vec_len out.old + 21 ≤ vec_capacity out.old }
    ensures items { out.new.items ≡ out.old.items ++ version_text version.now }
    ensures version { IsVersion version.now }
    ensures len { vec_len out.new ≤ vec_len out.old + 21 }
    ensures capacity { vec_capacity out.old ≤ vec_capacity out.new }
{
    put_number(out, version.index);
    put(out, b".");
    put_number(out, version.incarnation);
}

/// Appends what names an original: acquirer, trace number, local date and time.
fn put_identity(out: &mut Vec<u8>, identity: &Identity)
    requires { vec_len out.old + 31 ≤ vec_capacity out.old }
    ensures items { out.new.items ≡ out.old.items ++ identity_text identity.now }
    ensures identity { IsIdentity identity.now }
    ensures len { vec_len out.new ≤ vec_len out.old + 31 }
    ensures capacity { vec_capacity out.old ≤ vec_capacity out.new }
{
    put(out, identity.acquirer.as_slice());
    put(out, b":");
    put(out, identity.stan.0.as_slice());
    put(out, b":");
    put(out, identity.stamp.as_slice());
}

/// Appends the text of a key.
fn put_key(out: &mut Vec<u8>, key: &RowKey)
    requires { vec_len out.old + 61 ≤ vec_capacity out.old }
    ensures items { out.new.items ≡ out.old.items ++ key_text key.now }
    ensures key { IsKey key.now }
    ensures len { vec_len out.new ≤ vec_len out.old + 61 }
    ensures capacity { vec_capacity out.old ≤ vec_capacity out.new }
{
    match key {
        RowKey::Card(pan) => {
            put(out, b"card:");
            put(out, pan.as_slice());
        }
        RowKey::Velocity(pan, day) => {
            put(out, b"day:");
            put(out, pan.as_slice());
            put(out, b":");
            put(out, day.as_slice());
        }
        RowKey::Budget(prefix) => {
            put(out, b"budget:");
            put(out, prefix.0.as_slice());
        }
        RowKey::Original(identity) => {
            put(out, b"orig:");
            put_identity(out, identity);
        }
        RowKey::Account(id) => {
            put(out, b"acct:");
            put_account(out, id);
        }
    }
}

/// Appends the text of an event.
fn put_event(out: &mut Vec<u8>, event: &Event)
    requires { vec_len out.old + 85 ≤ vec_capacity out.old }
    ensures items { out.new.items ≡ out.old.items ++ event_text event.now }
    ensures event { IsEvent event.now }
    ensures len { vec_len out.new ≤ vec_len out.old + 85 }
    ensures capacity { vec_capacity out.old ≤ vec_capacity out.new }
{
    match event {
        Event::Claim => put(out, b"n"),
        Event::Read(version, key) => {
            put(out, b"r ");
            put_version(out, version);
            put(out, b" ");
            put_key(out, key);
        }
        Event::Block(version, index) => {
            put(out, b"b ");
            put_version(out, version);
            put(out, b" ");
            put_number(out, *index);
        }
        Event::Finish(version) => {
            put(out, b"f ");
            put_version(out, version);
        }
        Event::BeginValidation(version) => {
            put(out, b"c ");
            put_version(out, version);
        }
        Event::ValidateOne => put(out, b"o"),
        Event::EndValidation => put(out, b"e"),
        Event::Commit => put(out, b"k"),
    }
}

/// Appends an entry's line, with its line feed.
fn write_line(entry: &Entry, out: &mut Vec<u8>) -> Result<(), AllocError>
    ensures items { OnOk result (out.new.items ≡ out.old.items ++ line_of entry.now) }
    ensures entry { OnOk result (IsEntry entry.now) }
{
    out.reserve(LINE_ROOM)?;
    put_number(out, entry.seat.number());
    put(out, b" ");
    put_event(out, &entry.event);
    put(out, b"\n");
    Ok(())
}

/// Appends the text of a key. Where memory runs out, nothing is appended.
pub fn write_key(key: &RowKey, out: &mut Vec<u8>) -> Result<(), AllocError>
    ensures ok { OnOk result (out.new.items ≡ out.old.items ++ key_text key.now) }
    ensures err { OnErr result (out.new.items ≡ out.old.items) }
    // Room for the longest key is enough.
    ensures room { vec_len out.old + KEY_ROOM ≤ vec_capacity out.old → IsOk result }
    // So no other key has this text.
    ensures key { OnOk result (IsKey key.now) }
{
    out.reserve(KEY_ROOM)?;
    put_key(out, key);
    Ok(())
}

/// The text of a journal: a line for each entry. It fails only where memory runs out.
pub fn write_journal(alloc: Global, entries: &[Entry]) -> Result<Vec<u8>, AllocError>
    ensures text { IfOk result (λ text. text.items ≡ journal_text entries.now) }
    // So reading the text gives the entries again.
    ensures entries { OnOk result (AreEntries entries.now) }
{
    let mut text = Vec::new(alloc);
    for entry in entries {
        write_line(entry, &mut text)?;
    }
    Ok(text)
}
