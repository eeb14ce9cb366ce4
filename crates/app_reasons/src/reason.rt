use crate::block_words::BlockWords;
use crate::body_words::BodyWords;
use crate::file_kind::FileKind;
use crate::head_words::HeadWords;
use crate::line_reason::LineReason;
use crate::log_words::LogWords;
use crate::unread_words::UnreadWords;
use book_places::BookPlace;
use file_devices::HostReason;
use file_laws::BatchFault;
use file_listing::{
    BatchPlace, BlocksPlace, first_unread, place_in_batch, place_in_block_replies, place_in_blocks,
    place_in_replies,
};
use iso_shown::opening_of;
use std::fmt;

/// Why a file is not read, decided or written, with the place where there is one.
#[derive(Clone, Copy)]
pub enum Reason {
    /// The host said so.
    Host(HostReason),
    /// Another run has claimed it.
    InUse,
    /// Its head is wrong.
    Head(HeadWords),
    /// This body is wrong.
    Body(BodyWords),
    /// This block is wrong.
    Block(BlockWords),
    /// This many bytes stand behind the last body or block, from this byte on.
    Behind(usize, usize),
    /// This body is no message.
    Unread(UnreadWords),
    /// The text of a book is wrong there.
    Book(BookPlace),
    /// The line of this number, from 1, is no entry of a journal.
    JournalLine(usize),
    /// The decision of the entry of this number, from 1, asks for a row that isn't logged.
    JournalEntry(usize),
    /// The line of this number, from 1, is no body in hexadecimal.
    TextLine(usize, LineReason),
    /// It has more than 65,536 bodies.
    TooManyLines,
    /// The log is wrong, or isn't read.
    Log(LogWords),
    /// The log has more than 65,536,000 messages.
    TooManyMessages,
}

impl Reason {
    ghost use Rattle.std.specs.Prelude.{◌≡◌, List, ℕ, IfSome, IfNone};
    ghost use Rattle.file_listing.specs.Places.{IsBatchPlace, IsBlocksPlace, fault_of_batch, fault_of_blocks};
    ghost use Rattle.file_listing.specs.declared.body_kind.BodyKind.{BodyKind};
    ghost use Rattle.app_reasons.specs.Says.{SaysOfBodies, SaysOfBlocks, Says, SaysUnread, IsFileOf};

    // Of a file of bodies.
    fn of_bodies(kind: FileKind, file: &[u8], place: BatchPlace) -> Reason
        ensures { (magic : List ℕ) (bodies : BodyKind) → IsBatchPlace magic bodies file.now place → SaysOfBodies magic bodies file.now (fault_of_batch place) result }
    {
        match place {
            BatchPlace::Head(wrong) => Reason::Head(HeadWords {
                kind,
                found: FileKind::of_file(file),
                wrong,
            }),
            BatchPlace::Body(body) => Reason::Body(BodyWords(body)),
            BatchPlace::Behind(end, more) => Reason::Behind(end, more),
        }
    }

    // Of a file of blocks.
    fn of_blocks(kind: FileKind, file: &[u8], place: BlocksPlace) -> Reason
        ensures { (magic : List ℕ) (bodies : BodyKind) → IsBlocksPlace magic bodies file.now place → SaysOfBlocks magic bodies file.now (fault_of_blocks place) result }
    {
        match place {
            BlocksPlace::Head(wrong) => Reason::Head(HeadWords {
                kind,
                found: FileKind::of_file(file),
                wrong,
            }),
            BlocksPlace::Block(block) => Reason::Block(BlockWords(block)),
            BlocksPlace::Behind(end, more) => Reason::Behind(end, more),
        }
    }

    /// The first fault of a file that is none of this kind, and the reason with its place; nothing where it is one.
    pub fn of_file(kind: FileKind, file: &[u8]) -> Option<(BatchFault, Reason)>
        ensures says { IfSome result (λ found. Says kind file.now found.0 found.1) }
        ensures none { IfNone result (IsFileOf kind file.now) }
    {
        match kind {
            FileKind::Batch => match place_in_batch(file) {
                Some(place) => Some((place.fault(), Reason::of_bodies(kind, file, place))),
                None => None,
            },
            FileKind::Replies => match place_in_replies(file) {
                Some(place) => Some((place.fault(), Reason::of_bodies(kind, file, place))),
                None => None,
            },
            FileKind::Blocks => match place_in_blocks(file) {
                Some(place) => Some((place.fault(), Reason::of_blocks(kind, file, place))),
                None => None,
            },
            FileKind::BlockReplies => match place_in_block_replies(file) {
                Some(place) => Some((place.fault(), Reason::of_blocks(kind, file, place))),
                None => None,
            },
        }
    }

    /// The first body of a batch file that is no message, why, and how it begins. There is none where all before the first fault of the
    /// file are messages.
    pub fn of_unread(file: &[u8]) -> Option<Reason>
        ensures { IfSome result (SaysUnread file.now) }
    {
        match first_unread(file) {
            Some((unread, body)) => Some(Reason::Unread(UnreadWords {
                unread,
                opening: opening_of(body),
            })),
            None => None,
        }
    }
}

impl fmt::Display for Reason {
    ghost use Rattle.std.specs.Prelude.{Some};
    ghost use Rattle.app_reasons.specs.Words.{reason_words};

    ghost output = { λ reason. Some (reason_words reason) };

    fn fmt<W: fmt::Write>(&self, f: &mut fmt::Formatter<W>) -> fmt::Result {
        match self {
            Reason::Host(host) => host.fmt(f),
            Reason::InUse => f.write_str("in use by another run"),
            Reason::Head(head) => head.fmt(f),
            Reason::Body(body) => body.fmt(f),
            Reason::Block(block) => block.fmt(f),
            Reason::Behind(end, more) => {
                write!(f, "byte {end}: too many bytes behind the last body: {more}")
            }
            Reason::Unread(unread) => unread.fmt(f),
            Reason::Book(place) => place.fmt(f),
            Reason::JournalLine(line) => write!(f, "line {line}: no entry of a journal"),
            Reason::JournalEntry(entry) => write!(
                f,
                "entry {entry}: its decision asks for a row that isn't logged"
            ),
            Reason::TextLine(line, reason) => write!(f, "line {line}: {reason}"),
            Reason::TooManyLines => f.write_str("more than 65536 bodies"),
            Reason::Log(log) => log.fmt(f),
            Reason::TooManyMessages => f.write_str("more than 65536000 messages"),
        }
    }
}
