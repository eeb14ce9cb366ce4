ghost use Rattle.std.specs.Prelude.{◌≡◌};
ghost use Rattle.app_parts_folder.specs.Names.{ending_of};

/// A file of a part.
#[derive(Clone, Copy, Debug, PartialEq, Eq)]
pub enum PartFile {
    /// The part's book.
    Book,
    /// Its batch.
    Batch,
    /// The replies to it.
    Replies,
    /// The book behind it.
    NewBook,
    /// That it is decided.
    Decided,
}

impl PartFile {
    /// How the file's name ends.
    pub fn ending(&self) -> &'static str
        ensures { result.now ≡ ending_of self.now }
    {
        match self {
            PartFile::Book => ".book",
            PartFile::Batch => ".batch",
            PartFile::Replies => ".replies",
            PartFile::NewBook => ".newbook",
            PartFile::Decided => ".decided",
        }
    }

    // What it is called where names are of one file.
    pub(crate) fn role(&self) -> &'static str {
        match self {
            PartFile::Book => "a part's book",
            PartFile::Batch => "a part's batch",
            PartFile::Replies => "a part's replies",
            PartFile::NewBook => "a part's new book",
            PartFile::Decided => "a part's K.decided",
        }
    }
}
