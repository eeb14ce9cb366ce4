ghost use Rattle.std.specs.Prelude.{ℕ, List};
ghost use Rattle.issuer_words.specs.Words.{Frame, Rows};
ghost use Rattle.host_commands.specs.Standing.{StandsBehind};
ghost use Rattle.log_replay.specs.Blocks.{AreBlocksOf};
ghost use Rattle.log_replay.specs.Logged.{IsLogOfMessages, book_digest};
ghost use Rattle.host_commands.specs.GivenAgain.{AreGivenAgain};

use host_serving::Host;
use log_file::GrowingFile;

/// A replay of the log that a host wrote gives what the host gave: the messages are those that the host decided, in order; the replies of
/// all blocks, one block after another, are the host's to them, and those of the readable ones are, in order, what its clients got; and
/// the book after them is the host's.
pub fn a_replay_gives_what_the_host_gave<G: GrowingFile + Drop>(host: &Host<G>)
    ensures { (opening : Rows) (entries : List (List (List ℕ))) (messages decided : List Frame) (blocks : List (List Frame))
        → StandsBehind G.is_known G.synced G.unsynced opening (book_digest opening) entries messages host.now
        → IsLogOfMessages (book_digest opening) (G.synced host.now.log.file) decided → AreBlocksOf decided blocks
        → AreGivenAgain opening messages decided blocks host.now }
{
    let _ = host;
}
