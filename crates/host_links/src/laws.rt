//! Laws of turns.

ghost use Rattle.std.specs.Prelude.{◌≡◌, ◌++◌, ◌∷◌, [], ℕ, List};
ghost use mathlib.Core.List.{IsPrefix};
ghost use Rattle.issuer_rows.specs.Fold.{Rows, rows_after};
ghost use Rattle.host_links.specs.Turns.{answer_to_turn, came_on, given_to, messages_of, turns_of};
ghost use Rattle.host_links.specs.declared.link_turn.LinkTurn.{LinkTurn as Turned};

/// Whatever the order of the turns: what one link is given for turns, and then for others, is what it is given for all of them, the others on
/// the book after the messages of the first; and what came on it is what came in both.
pub fn turns_go_on()
    ensures came { (link : ℕ) (some more : List Turned) → came_on link (some ++ more) ≡ came_on link some ++ came_on link more }
    ensures given { (link : ℕ) (book : Rows) (some more : List Turned)
        → given_to link book (some ++ more) ≡ given_to link book some ++ given_to link (rows_after book (messages_of some)) more }
{}

/// What a link knows once it has seen all its own turns stays right, however many turns others take behind them.
pub fn turns_of_others_change_nothing()
    ensures came { (link : ℕ) (some all : List Turned) → IsPrefix some all → turns_of link some ≡ turns_of link all → came_on link all ≡ came_on link some }
    ensures given { (link : ℕ) (book : Rows) (some all : List Turned) → IsPrefix some all → turns_of link some ≡ turns_of link all
        → given_to link book all ≡ given_to link book some }
{}
