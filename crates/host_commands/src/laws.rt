ghost use Rattle.std.specs.Prelude.{◌≡◌, ◌++◌, ℕ, List};
ghost use Rattle.issuer_words.specs.Words.{Advice, Frame, OriginalKind, Request, Rows, replies_to, rows_after};
ghost use Rattle.issuer_laws.specs.Messages.{request_frame, advice_frame};
ghost use Rattle.issuer_laws.specs.Repeated.{repeat_of_request, repeat_of_advice};
ghost use Rattle.host_serving.specs.Deciding.{Follows};
ghost use Rattle.host_serving.specs.Entering.{Grows};
ghost use Rattle.host_serving.specs.Entries.{AreMessagesOf};
ghost use Rattle.host_commands.specs.Standing.{StandsBehind, IsSafe};

use host_serving::Host;
use issuer_laws::a_repeat_is_answered_alike;
use log_file::GrowingFile;

/// A host that stands behind its log does so when entries were appended and their messages decided, as `serve_link` does with each link.
pub fn a_host_stays_behind_its_log<G: GrowingFile + Drop>(old: &Host<G>, new: &Host<G>)
    ensures { (opening : Rows) (digest : List ℕ) (entries more : List (List (List ℕ))) (messages others : List Frame)
        → StandsBehind G.is_known G.synced G.unsynced opening digest entries messages old.now
        → Grows G.is_known G.synced G.unsynced old.now.log new.now.log more → AreMessagesOf more others → Follows old.now.decider new.now.decider others
        → StandsBehind G.is_known G.synced G.unsynced opening digest (entries ++ more) (messages ++ others) new.now }
{
    let _ = old;
    let _ = new;
}

/// The replies to messages that come behind those of a log are the fold's, on the opening book: however often the host was started again.
pub fn replies_go_on()
    ensures { (opening : Rows) (logged messages : List Frame)
        → replies_to opening (logged ++ messages) ≡ replies_to opening logged ++ replies_to (rows_after opening logged) messages }
{}

/// The repeat (1101, 1121) of a request or an advice that stands in the log, sent at any later time, after any restart too, gets the reply
/// that the first one has, and changes nothing. So a client that got no reply repeats, and is safe.
pub fn a_repeat_after_any_restart_is_safe<G: GrowingFile + Drop>(host: &Host<G>)
    ensures request { (opening : Rows) (digest : List ℕ) (entries : List (List (List ℕ))) (before behind : List Frame) (r : Request)
        → IsSafe G.is_known G.synced G.unsynced opening digest entries before (request_frame r) behind
        (request_frame (repeat_of_request r)) r.transaction OriginalKind.Request host.now }
    ensures advice { (opening : Rows) (digest : List ℕ) (entries : List (List (List ℕ))) (before behind : List Frame) (a : Advice)
        → IsSafe G.is_known G.synced G.unsynced opening digest entries before (advice_frame a) behind
        (advice_frame (repeat_of_advice a)) a.transaction OriginalKind.Advice host.now }
{
    let _ = host;
    a_repeat_is_answered_alike();
}
