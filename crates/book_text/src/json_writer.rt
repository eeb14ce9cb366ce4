ghost use Rattle.std.specs.Prelude.{◌≡◌, ◌&&◌, ◌+◌, ◌*◌, ◌≤◌, ◌∷◌, ◌++◌, [], length, decimal, true, false, cond, codes, IfOk, OnOk};
ghost use Rattle.json.specs.Print.{escape, quoted, separator};
ghost use Rattle.json.specs.Token.{begin_object as begin_object_token, end_object as end_object_token, begin_array as begin_array_token, end_array as end_array_token, null as null_token, key as key_token, string as string_token, number as number_token, boolean as boolean_token};
ghost use Rattle.book_laws.specs.Text.{Adds};
ghost use Rattle.book_text.specs.Members.{name_of};

use crate::escapes::is_plain;
use crate::member::Member;
use crate::text_buffer::TextBuffer;
use json::Writer;
use std::alloc::{AllocError, Global};
use std::marker::Model;

// How long the name before a value, its quotes and a comma may be together.
const AROUND: usize = 64;

/// A text of JSON that grows token by token (RFC 8259), without spaces. It places commas and colons, and leaves the nesting to its
/// caller. Each call fails only where memory runs out.
#[derive(Drop)]
pub struct JsonWriter {
    text: TextBuffer,
    // Whether a value just ended, so that a comma stands before the next one.
    after_value: bool,
}

impl Model for JsonWriter {
    ghost use Rattle.book_laws.specs.Text.{JsonText};

    ghost Value = { JsonText };

    ghost view = { λ w. record { text = w.text.text; after_value = w.after_value } };
}

impl JsonWriter {
    /// A text of nothing.
    pub fn empty(alloc: Global) -> JsonWriter
        ensures { result ≡ record { text = []; after_value = false } }
    {
        JsonWriter::new(Vec::new(alloc), false)
    }

    /// Writes behind this text, at whose end a value ended or not.
    pub fn new(text: Vec<u8>, after_value: bool) -> JsonWriter
        ensures { result ≡ record { text = text.items; after_value = after_value } }
    {
        JsonWriter {
            text: TextBuffer::new(text),
            after_value,
        }
    }

    /// The text, and whether a value ended at its end.
    pub fn into_parts(self) -> (Vec<u8>, bool)
        ensures text { result.0.items ≡ self.text }
        ensures after { result.1 ≡ self.after_value }
    {
        let JsonWriter { text, after_value } = self;
        (text.into_text(), after_value)
    }

    /// The text as a line. It fails only where memory runs out.
    pub fn into_line(self) -> Result<Vec<u8>, AllocError>
        ensures { IfOk result (λ line. line.items ≡ self.text ++ codes "\n") }
    {
        let (mut line, _) = self.into_parts();
        line.push(b'\n')?;
        Ok(line)
    }

    // Stores a short name and a text, perhaps in quotes. Where they begin a value or a member behind another, a comma stands before
    // them. It is told whether a value ends with them.
    #[inline(always)]
    fn put(
        &mut self,
        begins: bool,
        name: &[u8],
        quote: &[u8],
        text: &[u8],
        ends: bool,
    ) -> Result<(), AllocError>
        requires { length name.now + 2 * length quote.now + 1 ≤ 64 }
        ensures { OnOk result (self.new ≡ record { text = self.old.text ++ (cond (self.old.after_value && begins) (44 ∷ []) [] ++ (name.now ++ (quote.now ++ (text.now ++ quote.now)))); after_value = ends }) }
    {
        self.text.reserve(text.len() + AROUND)?;
        let comma = self.after_value && begins;
        self.text.put(comma, name, quote, text, quote);
        self.after_value = ends;
        Ok(())
    }

    // Stores a text in quotes, with the escapes that it needs, which begins a value or a member. It is told whether a value ends with it.
    fn put_quoted(&mut self, text: &str, ends: bool) -> Result<(), AllocError>
        ensures { OnOk result (self.new ≡ record { text = self.old.text ++ (separator self.old.after_value (string_token text.now) ++ quoted text.now); after_value = ends }) }
    {
        if is_plain(text.as_bytes()) {
            return self.put(true, b"", b"\"", text.as_bytes(), ends);
        }
        self.put(true, b"", b"", b"", ends)?;
        self.put_escaped(text)
    }

    // Appends a text in quotes, with the escapes that it needs.
    fn put_escaped(&mut self, text: &str) -> Result<(), AllocError>
        ensures text { OnOk result (self.new.text ≡ self.old.text ++ quoted text.now) }
        ensures after { self.new.after_value ≡ self.old.after_value }
    {
        let mut out = Writer::new(self.text.take());
        let written = out.string(text);
        self.text = TextBuffer::new(out.into_inner());
        written
    }

    /// Writes the opening brace of an object.
    #[inline(always)]
    pub fn begin_object(&mut self) -> Result<(), AllocError>
        ensures { OnOk result (Adds self.old self.new (begin_object_token ∷ [])) }
    {
        self.put(true, b"{", b"", b"", false)
    }

    /// Writes the closing brace of an object.
    #[inline(always)]
    pub fn end_object(&mut self) -> Result<(), AllocError>
        ensures { OnOk result (Adds self.old self.new (end_object_token ∷ [])) }
    {
        self.put(false, b"}", b"", b"", true)
    }

    /// Writes the opening bracket of an array.
    pub fn begin_array(&mut self) -> Result<(), AllocError>
        ensures { OnOk result (Adds self.old self.new (begin_array_token ∷ [])) }
    {
        self.put(true, b"[", b"", b"", false)
    }

    /// Writes the closing bracket of an array.
    pub fn end_array(&mut self) -> Result<(), AllocError>
        ensures { OnOk result (Adds self.old self.new (end_array_token ∷ [])) }
    {
        self.put(false, b"]", b"", b"", true)
    }

    /// Writes the name of a member.
    pub fn key(&mut self, name: &str) -> Result<(), AllocError>
        ensures { OnOk result (Adds self.old self.new (key_token name.now ∷ [])) }
    {
        self.put_quoted(name, false)?;
        self.put(false, b":", b"", b"", false)
    }

    /// Writes a text.
    pub fn string(&mut self, text: &str) -> Result<(), AllocError>
        ensures { OnOk result (Adds self.old self.new (string_token text.now ∷ [])) }
    {
        self.put_quoted(text, true)
    }

    /// Writes a number.
    pub fn number(&mut self, number: u64) -> Result<(), AllocError>
        ensures { OnOk result (Adds self.old self.new (number_token (decimal number) ∷ [])) }
    {
        let mut buffer = itoa::Buffer::new();
        self.put(true, b"", b"", buffer.format(number).as_bytes(), true)
    }

    /// Writes `true`.
    pub fn put_true(&mut self) -> Result<(), AllocError>
        ensures { OnOk result (Adds self.old self.new (boolean_token true ∷ [])) }
    {
        self.put(true, b"true", b"", b"", true)
    }

    /// Writes null.
    pub fn null(&mut self) -> Result<(), AllocError>
        ensures { OnOk result (Adds self.old self.new (null_token ∷ [])) }
    {
        self.put(true, b"null", b"", b"", true)
    }

    /// Writes a member that is a text.
    pub fn text_field(&mut self, name: &str, text: &str) -> Result<(), AllocError>
        ensures { OnOk result (Adds self.old self.new (key_token name.now ∷ string_token text.now ∷ [])) }
    {
        self.key(name)?;
        self.string(text)
    }

    /// Writes a member that is a number.
    pub fn number_field(&mut self, name: &str, number: u64) -> Result<(), AllocError>
        ensures { OnOk result (Adds self.old self.new (key_token name.now ∷ number_token (decimal number) ∷ [])) }
    {
        self.key(name)?;
        self.number(number)
    }

    /// Writes a member that is null.
    pub fn null_field(&mut self, name: &str) -> Result<(), AllocError>
        ensures { OnOk result (Adds self.old self.new (key_token name.now ∷ null_token ∷ [])) }
    {
        self.key(name)?;
        self.null()
    }

    /// Writes the name of a member of an entry.
    #[inline(always)]
    pub fn name(&mut self, member: Member) -> Result<(), AllocError>
        ensures { OnOk result (Adds self.old self.new (key_token (name_of member) ∷ [])) }
    {
        self.put(true, member.text().as_bytes(), b"", b"", false)
    }

    /// Writes a member of an entry whose text needs no escapes.
    #[inline(always)]
    pub fn text_member(&mut self, member: Member, text: &[u8]) -> Result<(), AllocError>
        requires { escape text.now ≡ text.now }
        ensures { OnOk result (Adds self.old self.new (key_token (name_of member) ∷ string_token text.now ∷ [])) }
    {
        self.put(true, member.text().as_bytes(), b"\"", text, true)
    }

    /// Writes a member of an entry that is a number.
    #[inline(always)]
    pub fn number_member(&mut self, member: Member, number: u64) -> Result<(), AllocError>
        ensures { OnOk result (Adds self.old self.new (key_token (name_of member) ∷ number_token (decimal number) ∷ [])) }
    {
        let mut buffer = itoa::Buffer::new();
        let digits = buffer.format(number).as_bytes();
        self.put(true, member.text().as_bytes(), b"", digits, true)
    }

    /// Writes a member of an entry that is null.
    #[inline(always)]
    pub fn null_member(&mut self, member: Member) -> Result<(), AllocError>
        ensures { OnOk result (Adds self.old self.new (key_token (name_of member) ∷ null_token ∷ [])) }
    {
        self.put(true, member.text().as_bytes(), b"", b"null", true)
    }
}
