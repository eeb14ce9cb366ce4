ghost use Rattle.std.specs.Prelude.{List};
ghost use Rattle.issuer_words.specs.Words.{Advice, Frame, Identity, KeptOriginal, Request, Reversal, Rows, replies_to};
ghost use Rattle.issuer_laws.specs.Again.{RequestsWriteNothingAgain, ReversalsWriteNothingAgain};
ghost use Rattle.issuer_laws.specs.Duplicate.{SecondIsDuplicate};
ghost use Rattle.issuer_laws.specs.Echoed.{EchoEach};
ghost use Rattle.issuer_laws.specs.Permanent.{Continues, IsSameOriginal, StaysKept};
ghost use Rattle.issuer_laws.specs.Repeated.{RequestIsAnsweredAlike, AdviceIsAnsweredAlike};

/// A request or an advice that is the first of its identity, then any other messages, its own reversal too, and then its
/// repeat (1101, 1121): the repeat gets the same reply, the approval code too, and changes nothing.
pub fn a_repeat_is_answered_alike()
    ensures request { (rows : Rows) (r : Request) (between : List Frame) → RequestIsAnsweredAlike rows r between }
    ensures advice { (rows : Rows) (a : Advice) (between : List Frame) → AdviceIsAnsweredAlike rows a between }
{}

/// After a reversal that was answered 400, and whatever else came after it: another reversal of the same original, with an
/// identity of its own, is answered 913, duplicate transmission, and changes nothing.
pub fn a_second_reversal_is_a_duplicate()
    ensures { (rows : Rows) (first second : Reversal) (between : List Frame) → SecondIsDuplicate rows first between second }
{}

/// An original that is kept is never lost, whatever comes: it stays as it is, or it is reversed, once. Its card, amount,
/// processing code, action and approval code never change.
pub fn an_original_is_kept_for_good()
    ensures stays { (rows : Rows) (identity : Identity) (k : KeptOriginal) (frames : List Frame) → StaysKept rows identity k frames }
    ensures same { (before after : KeptOriginal) → Continues before after → IsSameOriginal before after }
{}

/// The reply at each place of a batch is that of the message at the same place: of the type that answers its type, with its card,
/// amount, times, trace, acquirer, terminal and currency, and the account that it names; of a body that is no message it is the fault.
pub fn each_reply_repeats_its_message()
    ensures { (rows : Rows) (frames : List Frame) → EchoEach frames (replies_to rows frames) }
{}

/// A batch that is sent once more, its requests as 1101, its advices as 1121 and its reversals as 1421, changes nothing: where it has no
/// reversals, and where none of them was refused for what may come later, a payer or a day without a row (914), or one of them with too
/// much or too little (909).
pub fn a_batch_again_changes_nothing()
    ensures requests { (rows : Rows) (frames : List Frame) → RequestsWriteNothingAgain rows frames }
    ensures reversals { (rows : Rows) (frames : List Frame) → ReversalsWriteNothingAgain rows frames }
{}
