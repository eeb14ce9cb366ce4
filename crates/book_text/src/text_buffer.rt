ghost use Rattle.std.specs.Prelude.{◌≡◌, ◌+◌, ◌≤◌, ◌∷◌, ◌++◌, [], length, take, cond, OnOk};
ghost use Rattle.json.specs.Filled.{Placed};

use std::alloc::AllocError;
use std::marker::Model;
use std::mem;

static ZEROS: [u8; 1024] = [0; 1024];

/// A list of bytes that begins with the text so far. The bytes behind it are zeros or what was there before, so that a piece of text is
/// stored and not appended.
#[derive(Drop)]
pub(crate) struct TextBuffer {
    bytes: Vec<u8>,
    len: usize,
}

impl Model for TextBuffer {
    ghost use Rattle.std.specs.Prelude.{◌-◌, ◌≤◌, length, take};
    ghost use Rattle.book_text.specs.Prepared.{Prepared};

    ghost Value = { Prepared };

    ghost view = { λ b. record { text = take b.len b.bytes.items; ready = length b.bytes.items - b.len } };

    ghost invariant = { λ b. b.len ≤ length b.bytes.items };
}

impl TextBuffer {
    /// A buffer of this text.
    pub(crate) fn new(bytes: Vec<u8>) -> TextBuffer
        ensures { result.text ≡ bytes.items }
    {
        let len = bytes.len();
        TextBuffer { bytes, len }
    }

    /// The text.
    pub(crate) fn into_text(self) -> Vec<u8>
        ensures { result.items ≡ self.text }
    {
        let TextBuffer { mut bytes, len } = self;
        bytes.truncate(len);
        bytes
    }

    /// Makes room for so much more text. It fails only where memory runs out.
    #[inline(always)]
    pub(crate) fn reserve(&mut self, more: usize) -> Result<(), AllocError>
        ensures text { self.new.text ≡ self.old.text }
        ensures room { OnOk result (more ≤ self.new.ready) }
    {
        if more <= self.bytes.len() - self.len {
            return Ok(());
        }
        self.grow(more)
    }

    #[inline(never)]
    fn grow(&mut self, more: usize) -> Result<(), AllocError>
        ensures text { self.new.text ≡ self.old.text }
        ensures room { OnOk result (more ≤ self.new.ready) }
    {
        let wanted = self.len.saturating_add(more);
        fill(&mut self.bytes, wanted)
    }

    /// Stores pieces of text behind what is there, one behind another, and a comma before them where it is wanted.
    #[inline(always)]
    pub(crate) fn put(&mut self, comma: bool, name: &[u8], quote: &[u8], text: &[u8], close: &[u8])
        requires { 1 + length name.now + length quote.now + length text.now + length close.now ≤ self.old.ready }
        ensures { self.new.text ≡ self.old.text ++ (cond comma (44 ∷ []) [] ++ (name.now ++ (quote.now ++ (text.now ++ close.now)))) }
    {
        let bytes = self.bytes.as_mut_slice();
        let at = place_comma(bytes, self.len, comma);
        let at = place(bytes, at, name);
        let at = place(bytes, at, quote);
        let at = place(bytes, at, text);
        self.len = place(bytes, at, close);
    }

    /// Takes the text out.
    pub(crate) fn take(&mut self) -> Vec<u8>
        ensures taken { result.items ≡ self.old.text }
        ensures empty { self.new.text ≡ [] }
    {
        let alloc = *self.bytes.allocator();
        mem::replace(self, TextBuffer::new(Vec::new(alloc))).into_text()
    }
}

// Appends zeros, until there are so many bytes.
fn fill(bytes: &mut Vec<u8>, wanted: usize) -> Result<(), AllocError>
    ensures front { take (length bytes.old.items) bytes.new.items ≡ bytes.old.items }
    ensures longer { length bytes.old.items ≤ length bytes.new.items }
    ensures ok { OnOk result (wanted ≤ length bytes.new.items) }
{
    while bytes.len() < wanted {
        bytes.extend_from_slice(&ZEROS)?;
    }
    Ok(())
}

// The comma is always stored, and counts where it is wanted.
#[inline(always)]
fn place_comma(bytes: &mut [u8], at: usize, comma: bool) -> usize
    requires { at + 1 ≤ length bytes.old }
    ensures { Placed bytes.old bytes.new at (cond comma (44 ∷ []) []) result }
{
    bytes[at] = b',';
    if comma { at + 1 } else { at }
}

// Stores a piece of text at a place. Returns the place behind it.
#[inline(always)]
fn place(bytes: &mut [u8], at: usize, text: &[u8]) -> usize
    requires { at + length text.now ≤ length bytes.old }
    ensures { Placed bytes.old bytes.new at text.now result }
{
    let end = at + text.len();
    bytes[at..end].copy_from_slice(text);
    end
}
