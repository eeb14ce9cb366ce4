//! Laws of batch files and of block files.

ghost use Rattle.std.specs.Prelude.{◌≡◌, ◌<◌, ℕ, List, Ok};
ghost use Rattle.std.specs.List.{All};
ghost use Rattle.issuer_words.specs.Words.{Frame, ReplyBody, Rows, replies_to, rows_after};
ghost use Rattle.file_laws.specs.Files.{IsBatch, replies_text};
ghost use Rattle.file_laws.specs.Replies.{AreReplyBodies, IsReplyFileOf};
ghost use Rattle.file_laws.specs.Reading.{bodies_of, batch_magic};
ghost use Rattle.file_laws.specs.Blocks.{rows_after_blocks, replies_to_blocks, all_messages, all_replies, AreCutAs, AreBlocksOfReplies, IsBlockReplyFileOf, block_replies_text};

/// Blocks that are decided one after another come to what deciding all their messages in order comes to: the same
/// book, and the same replies, cut as the blocks are.
pub fn blocks_are_one_fold()
    ensures book { (rows : Rows) (blocks : List (List Frame)) → rows_after_blocks rows blocks ≡ rows_after rows (all_messages blocks) }
    ensures replies { (rows : Rows) (blocks : List (List Frame)) → all_replies (replies_to_blocks rows blocks) ≡ replies_to rows (all_messages blocks) }
    ensures cut { (rows : Rows) (blocks : List (List Frame)) → AreCutAs (replies_to_blocks rows blocks) blocks }
{}

/// A batch file of some bodies is read as these bodies, so it is a batch of no others.
pub fn a_batch_is_read_as_its_bodies()
    ensures { (bytes : List ℕ) (bodies : List (List ℕ)) → IsBatch bytes bodies → bodies_of batch_magic bytes ≡ Ok bodies }
{}

/// A batch file that is read without a fault is the text of its bodies, which are bodies that a file can have. So a file
/// is a batch of at most one list of bodies, and what reading takes for a batch is one.
pub fn a_batch_that_is_read_is_its_text()
    ensures { (bytes : List ℕ) (bodies : List (List ℕ)) → All (λ byte. byte < 256) bytes → bodies_of batch_magic bytes ≡ Ok bodies → IsBatch bytes bodies }
{}

/// The reply file of some replies is a reply file of these replies and of no others.
pub fn replies_are_read_back()
    ensures again { (replies : List ReplyBody) → AreReplyBodies replies → IsReplyFileOf (replies_text replies) replies }
    ensures alone { (replies others : List ReplyBody) → AreReplyBodies replies → IsReplyFileOf (replies_text replies) others → others ≡ replies }
{}

/// The reply file of the replies of some blocks is a reply file of these replies, block by block, and of no others.
pub fn replies_of_blocks_are_read_back()
    ensures again { (blocks : List (List ReplyBody)) → AreBlocksOfReplies blocks → IsBlockReplyFileOf (block_replies_text blocks) blocks }
    ensures alone { (blocks others : List (List ReplyBody)) → AreBlocksOfReplies blocks → IsBlockReplyFileOf (block_replies_text blocks) others → others ≡ blocks }
{}
