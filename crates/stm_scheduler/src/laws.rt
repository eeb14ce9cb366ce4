ghost use Rattle.std.specs.Prelude.{◌≡◌, ℕ};
ghost use Rattle.stm_scheduler.specs.Board.{Board};
ghost use Rattle.stm_scheduler.specs.Cursors.{Chooses, IsAllowed};
ghost use Rattle.stm_scheduler.specs.declared.task.Task.{Task};

/// The cursors choose one task, and one that is allowed whatever the cursors are.
pub fn choices_are_determined()
    ensures allowed { (b : Board) (e v : ℕ) (answer : Task) (f w : ℕ) → Chooses b e v answer f w → IsAllowed b answer }
    ensures one { (b : Board) (e v : ℕ) (answer : Task) (f w : ℕ) → Chooses b e v answer f w → (other : Task) (g x : ℕ) → Chooses b e v other g x → (answer ≡ other) × (f ≡ g) × (w ≡ x) }
{}
