ghost use Rattle.std.specs.Prelude.{List, ℕ};
ghost use Rattle.std.specs.List.{AllZip};
ghost use Rattle.issuer_rows.specs.declared.frame.Frame.{Frame};
ghost use Rattle.file_batch.specs.Words.{AreFramesOf, IsBlockFileOf};
ghost use Rattle.file_listing.specs.BlockText.{AreBlocksOfBodies, block_file_text};

/// What blocks are packed into is a block file of the messages of their bodies, block by block.
pub fn packed_blocks_are_read()
    ensures { (blocks : List (List (List ℕ))) (messages : List (List Frame)) → AreBlocksOfBodies blocks → AllZip AreFramesOf blocks messages
        → IsBlockFileOf (block_file_text blocks) messages }
{}
