//! What is known of the best plan for a request while its goal is at work.
#![tactic(auto)]

ghost use Rattle.std.specs.Prelude.{◌≡◌, ◌-◌, ◌^◌};
ghost use Rattle.query_core.specs.declared.query.Query.{Query as AnyQuery};
ghost use Rattle.goal_space.specs.Words.{goal_word};
ghost use Rattle.goal_rules.specs.Answers.{AreWordsOf};
ghost use Rattle.job_turns.specs.Searches.{IsAtWork, StaysAtWork};
ghost use Rattle.job_turns.specs.Seats.{IsTurnChild};
ghost use Rattle.job_turns.specs.Choices.{best_of_both, AnswersAreKnown, IsProgressOf, TellsBest};
ghost use Rattle.job_turns.specs.Finds.{FindsAnswer, TurnPutsChildren};

use crate::board_search::BoardSearch;
use crate::job_turn::JobTurn;
use crate::laws::words_are_known;
use crate::over_query::await_word;
use best_answers::{Best, answers_are_best, lesser};
use board_moves::{Job, Progress, put_goal};
use goal_board::{Answer, Hints, Inserted};
use goal_space::{GoalKind, goal_kinds_are_one, goals_are_known};
use plan_tree::Node;
use query_core::Goal;

/// What is known of the best answer of some nodes for a request.
#[derive(Clone, Copy)]
pub(crate) enum KnownBest {
    /// This is it; none where none of them makes a plan.
    Known(Option<Best>),
    /// One of them stands on a plan that isn't chosen yet.
    Open,
}

impl KnownBest {
    /// What is known of the best answer of both.
    #[inline(always)]
    pub(crate) fn or(self, other: KnownBest) -> KnownBest
        ensures { result ≡ best_of_both self other }
    {
        match (self, other) {
            (KnownBest::Known(first), KnownBest::Known(second)) => KnownBest::Known(lesser(
                first, second,
            )),
            (KnownBest::Known(_), KnownBest::Open) => KnownBest::Open,
            (KnownBest::Open, _) => KnownBest::Open,
        }
    }
}

/// Awaits a child of the goal, which has this word, and tells its answer. None where it found every cell taken.
#[inline(always)]
pub(crate) fn await_best<'q, H: Hints>(
    search: &BoardSearch<'_, 'q>,
    turn: &mut JobTurn<'_, 'q, H>,
    child: GoalKind,
    word: Goal,
) -> Option<KnownBest>
    requires at_work { IsAtWork search.now turn.old (H.capacity turn.old.hints.now) }
    requires child { IsTurnChild search.now turn.old child }
    requires word { goal_word child ≡ word.0 }
    ensures at_work { StaysAtWork search.now turn.old turn.new (H.capacity turn.new.hints.now) }
    ensures chooses { FindsAnswer search.now turn.old child result turn.new }
{
    // For the proof: the words of an answer tell it.
    answers_are_known();
    match await_word(search, turn, child, word) {
        Progress::Complete(answer) => Some(KnownBest::Known(best_of(answer))),
        Progress::Waiting => Some(KnownBest::Open),
        Progress::Full => None,
    }
}

/// Puts in a child of the goal, which has this word. False where it found every cell taken.
#[inline(always)]
pub(crate) fn put_child<'q, H: Hints>(
    search: &BoardSearch<'_, 'q>,
    turn: &mut JobTurn<'_, 'q, H>,
    _child: GoalKind,
    word: Goal,
) -> bool
    requires at_work { IsAtWork search.now turn.old (H.capacity turn.old.hints.now) }
    requires child { IsTurnChild search.now turn.old _child }
    requires word { goal_word _child ≡ word.0 }
    ensures at_work { StaysAtWork search.now turn.old turn.new (H.capacity turn.new.hints.now) }
    ensures puts { TurnPutsChildren search.now turn.old result turn.new }
{
    // For the proof: a child of a goal has a word.
    words_are_known();
    match put_goal(search.board, turn.seat, word.0, turn.hints) {
        Inserted::Full => false,
        _ => true,
    }
}

/// How far the goal is, where this was found.
#[inline(always)]
pub(crate) fn progress_of(job: &Job, found: Option<KnownBest>) -> Progress
    ensures { IsProgressOf job.now.right found result }
{
    match found {
        Some(KnownBest::Known(best)) => job.progress(answer_of(best)),
        Some(KnownBest::Open) => Progress::Waiting,
        None => Progress::Full,
    }
}

// The answer that these words are.
#[inline(always)]
fn best_of(answer: Answer) -> Option<Best>
    ensures { TellsBest answer.cost answer.node result }
{
    if answer.cost == u64::MAX {
        return None;
    }
    Some(Best {
        cost: answer.cost,
        node: Node(answer.node),
    })
}

// The words of an answer.
#[inline(always)]
fn answer_of(best: Option<Best>) -> Answer
    ensures { AreWordsOf best result.cost result.node }
{
    match best {
        Some(best) => Answer {
            cost: best.cost,
            node: best.node.0,
        },
        None => Answer {
            cost: u64::MAX,
            node: 0,
        },
    }
}

// The words of the answer of a goal of the query tell it.
fn answers_are_known()
    ensures { (q : AnyQuery) → AnswersAreKnown q }
{
    goal_kinds_are_one();
    goals_are_known();
    answers_are_best();
}
