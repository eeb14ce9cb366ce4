use engine_parts::PartsPlan;
use issuer_rows::{Book, Frame};
use std::marker::Model;

/// A batch in at most 64 parts on a book, no two of which may need the same row.
#[derive(Drop)]
pub struct BatchInParts {
    pub(crate) book: Book,
    // The bodies, each as its bytes, and what they are.
    pub(crate) bodies: Vec<Vec<u8>>,
    pub(crate) frames: Vec<Frame>,
    // The part of each.
    pub(crate) plan: PartsPlan,
}

impl Model for BatchInParts {
    ghost use Rattle.app_parts_folder.specs.BatchInParts.{IsInParts, parting_of};
    ghost use Rattle.app_parts_folder.specs.Parting.{Parting};
    ghost use Rattle.issuer_rows.specs.contracts.book.Book.{the_row as book_row};
    ghost use Rattle.std.specs.Coded.{codes};

    ghost Value = { Parting };

    ghost coded = { Prim.hlevel (codes, book_row.coded) };

    ghost view = { λ b. parting_of b.book b.bodies.items b.frames.items b.plan };

    ghost invariant = { λ b. IsInParts (parting_of b.book b.bodies.items b.frames.items b.plan) };
}
