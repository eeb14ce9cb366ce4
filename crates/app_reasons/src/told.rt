use crate::reason::Reason;
use std::fmt;

/// What is told of a file: its name and the reason, as `after.json: no such file or directory`.
#[derive(Clone, Copy)]
pub struct Told<'a> {
    /// The file's name.
    pub name: &'a str,
    /// Why it isn't read, decided or written.
    pub reason: Reason,
}

impl fmt::Display for Told<'_> {
    ghost use Rattle.std.specs.Prelude.{Some};
    ghost use Rattle.app_reasons.specs.Words.{told_words};

    ghost output = { λ told. Some (told_words told.name.now told.reason) };

    fn fmt<W: fmt::Write>(&self, f: &mut fmt::Formatter<W>) -> fmt::Result {
        write!(f, "{}: {}", self.name, self.reason)
    }
}
