use std::fmt;

/// A kind of file that begins with four letters of its own.
#[derive(Clone, Copy, Debug, PartialEq, Eq)]
pub enum FileKind {
    /// A batch.
    Batch,
    /// Replies of a batch.
    Replies,
    /// Blocks.
    Blocks,
    /// Replies of blocks.
    BlockReplies,
}

impl FileKind {
    ghost use Rattle.std.specs.Prelude.{◌≡◌};
    ghost use Rattle.app_reasons.specs.Says.{letters_of};

    /// The letters that it begins with.
    pub fn letters(self) -> &'static str
        ensures { result.now ≡ letters_of self }
    {
        match self {
            FileKind::Batch => "I83B",
            FileKind::Replies => "I83R",
            FileKind::Blocks => "I83M",
            FileKind::BlockReplies => "I83T",
        }
    }

    /// The kind whose letters the file begins with.
    pub fn of_file(file: &[u8]) -> Option<FileKind> {
        let kinds = [
            FileKind::Batch,
            FileKind::Replies,
            FileKind::Blocks,
            FileKind::BlockReplies,
        ];
        kinds
            .into_iter()
            .find(|kind| file.starts_with(kind.letters().as_bytes()))
    }
}

impl fmt::Display for FileKind {
    ghost use Rattle.std.specs.Prelude.{Some};
    ghost use Rattle.app_reasons.specs.Words.{kind_words};

    ghost output = { λ kind. Some (kind_words kind) };

    fn fmt<W: fmt::Write>(&self, f: &mut fmt::Formatter<W>) -> fmt::Result {
        match self {
            FileKind::Batch => f.write_str("a batch"),
            FileKind::Replies => f.write_str("replies of a batch"),
            FileKind::Blocks => f.write_str("blocks"),
            FileKind::BlockReplies => f.write_str("replies of blocks"),
        }
    }
}
