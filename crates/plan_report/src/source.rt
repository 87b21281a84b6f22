//! Where the answers to the goals of a query are looked up.
ghost use Rattle.std.specs.Prelude.{◌≡◌, List, IfSome, IfNone};
ghost use Rattle.std.specs.List.{Contains};
ghost use Rattle.plan_tree.specs.declared.answers.Answered.{Answered as AnyAnswered};
ghost use Rattle.goal_space.specs.Answers.{words_told};

use plan_tree::Answered;
use query_core::Goal;

/// What has answers to goals.
pub trait AnswerSource {
    // The answers that it has, in whatever order.
    ghost answers: { Self → List AnyAnswered };

    /// The answer to a goal, if it has one.
    fn answer(&self, goal: Goal) -> Option<Answered>
        ensures found { IfSome result (λ told. Contains (answers self.now) told × (told.goal ≡ goal)) }
        ensures none { IfNone result (Contains (words_told (answers self.now)) goal.0 → ⊥) };
}
