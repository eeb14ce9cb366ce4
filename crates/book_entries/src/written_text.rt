//! The tokens of entries, asked for in the order in which those of a book are written.

use json::{Reader, Token};

/// The rest of a text. A call that is answered `None` found other tokens than it asked for.
#[derive(Drop)]
pub struct WrittenText<'a> {
    tokens: Reader<'a>,
}

impl<'a> WrittenText<'a> {
    /// A text from its first token on.
    pub fn new(tokens: Reader<'a>) -> WrittenText<'a> {
        WrittenText { tokens }
    }

    /// Whether one more entry begins; else the text ends.
    pub fn has_entry(&mut self) -> Option<bool> {
        match self.tokens.next() {
            Some(Token::BeginObject) => Some(true),
            None => Some(false),
            _ => None,
        }
    }

    /// The object ends.
    pub(crate) fn end_object(&mut self) -> Option<()> {
        match self.tokens.next()? {
            Token::EndObject => Some(()),
            _ => None,
        }
    }

    /// The key of this name.
    pub(crate) fn key(&mut self, name: &str) -> Option<()> {
        match self.tokens.next()? {
            Token::Key(key) if key == name => Some(()),
            _ => None,
        }
    }

    /// The number of this name.
    pub(crate) fn number(&mut self, name: &str) -> Option<u64> {
        self.key(name)?;
        match self.tokens.next()? {
            Token::Number(digits) => digits.parse::<u64>().ok(),
            _ => None,
        }
    }

    /// The text of this name.
    pub(crate) fn text(&mut self, name: &str) -> Option<&'a str> {
        self.text_or_null(name)?
    }

    /// The text of this name, or null.
    pub(crate) fn text_or_null(&mut self, name: &str) -> Option<Option<&'a str>> {
        self.key(name)?;
        match self.tokens.next()? {
            Token::String(text) => Some(Some(text)),
            Token::Null => Some(None),
            _ => None,
        }
    }

    /// Whether an object of this name begins; else it is null.
    pub(crate) fn has_object(&mut self, name: &str) -> Option<bool> {
        self.key(name)?;
        match self.tokens.next()? {
            Token::BeginObject => Some(true),
            Token::Null => Some(false),
            _ => None,
        }
    }
}
