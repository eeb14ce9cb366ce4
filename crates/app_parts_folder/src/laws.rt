//! Laws of the file of a plan.

ghost use Rattle.std.specs.Prelude.{◌≡◌};
ghost use Rattle.app_parts_folder.specs.PlanTexts.{IsPlan, Plan, plan_text};

/// The text of a plan is the text of no other plan.
pub fn a_text_is_of_one_plan()
    ensures { (one other : Plan) → IsPlan one → IsPlan other → plan_text one ≡ plan_text other → one ≡ other }
{}
