//! Laws of the texts of a batch and of blocks.

ghost use Rattle.std.specs.Prelude.{◌≡◌, ◌<◌, ℕ, List, Ok};
ghost use Rattle.std.specs.List.{All};
ghost use Rattle.file_laws.specs.Files.{batch_text};
ghost use Rattle.file_listing.specs.BlockLines.{AreTextsOf, ArePackedFrom};
ghost use Rattle.file_listing.specs.BodyLines.{IsTextOf, IsPackedFrom};

/// The text of a batch is packed into that batch: its lines are read as bodies without a fault, and the batch file of these bodies is the
/// batch, byte for byte.
pub fn lines_are_packed_again()
    ensures { (batch text : List ℕ) → All (λ byte. byte < 256) batch → IsTextOf batch text → IsPackedFrom text batch }
{}

/// The texts of a block file are packed into that file: each is read as the bodies of its block without a fault, and the block file of these
/// blocks is the file, byte for byte.
pub fn texts_are_packed_again()
    ensures { (file : List ℕ) (texts : List (List ℕ)) → All (λ byte. byte < 256) file → AreTextsOf file texts → ArePackedFrom texts file }
{}
