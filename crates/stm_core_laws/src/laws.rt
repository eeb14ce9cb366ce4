ghost use Rattle.std.specs.Prelude.{◌≡◌, List};
ghost use Rattle.issuer_words.specs.Words.{Frame, Rows};
ghost use Rattle.stm_core_laws.specs.State.{State, start};
ghost use Rattle.stm_core_laws.specs.Run.{Call, Step, Run, RepliesAreTheFold, RowsAreTheFold};
ghost use Rattle.stm_core_laws.specs.declared.limits.Limits.{Limits};

/// Whatever calls are made of a core, in any order, invalid ones too, what it commits is the serial order (Block-STM): the committed
/// replies, and the opening book with each row as the next message sees it, are those of deciding as many messages one after another.
pub fn committed_is_the_fold()
    ensures replies { (opening : Rows) (frames : List Frame) (limits : Limits) (calls : List Call) (state : State) → Run (start opening frames limits) calls state → RepliesAreTheFold opening frames state }
    ensures rows { (opening : Rows) (frames : List Frame) (limits : Limits) (calls : List Call) (state : State) → Run (start opening frames limits) calls state → RowsAreTheFold opening frames state }
{}

/// A call with its answer leads from a state to one state.
pub fn steps_are_determined()
    ensures { (old : State) (call : Call) (one other : State) → Step old call one → Step old call other → one ≡ other }
{}
