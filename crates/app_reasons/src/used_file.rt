use crate::file_kind::FileKind;

/// What a command does with a file.
#[derive(Clone, Copy, Debug, PartialEq, Eq)]
pub enum FileUse {
    /// It reads it as a book.
    Book,
    /// It reads it as one of this kind.
    Bodies(FileKind),
    /// It claims it, to read it while nobody writes it.
    Shared,
    /// It claims it, and writes it.
    Written,
    /// It reads it as a log, to put the messages in blocks.
    Log,
}

/// A file of a command.
#[derive(Clone, Copy, Debug)]
pub struct UsedFile<'a> {
    /// Its name.
    pub name: &'a str,
    /// What the command does with it.
    pub used: FileUse,
}

impl<'a> UsedFile<'a> {
    ghost use Rattle.std.specs.Prelude.{◌≡◌};

    /// The file of this name that a command uses so.
    pub fn new(name: &'a str, used: FileUse) -> UsedFile<'a>
        ensures name { result.name.now ≡ name.now }
        ensures used { result.used ≡ used }
    {
        UsedFile { name, used }
    }
}
