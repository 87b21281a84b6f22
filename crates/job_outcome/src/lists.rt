//! Members and finished goals in the order of their words.
#![tactic(auto)]

ghost use Rattle.std.specs.Prelude.{◌≡◌, IfOk, map};
ghost use Rattle.std.specs.List.{filter};
ghost use Rattle.std.specs.List.Sorted.{IsPermutation, IsNonDecreasing, IsNonDecreasingBy};
ghost use Rattle.job_outcome.specs.Searched.{is_member_word, told_with, told_of};
ghost use Rattle.goal_board.specs.declared.answers.Finished.{Finished as AnyFinished};

use goal_board::{Answer, Finished};
use orca_base::List;
use plan_tree::{Answered, Answers, Node};
use query_core::Goal;
use std::alloc::{AllocError, Global};

/// The members among these words, ascending.
pub fn members_of(alloc: Global, cells: &[u64]) -> Result<List<u64>, AllocError>
    ensures same { IfOk result (IsPermutation (filter is_member_word cells.now)) }
    ensures ascending { IfOk result IsNonDecreasing }
{
    let mut members = Vec::new(alloc);
    for word in cells {
        if !Goal::is_word(*word) {
            members.push(*word)?;
        }
    }
    members.sort_unstable();
    Ok(List::of(members))
}

/// These goals in the order of their words.
pub fn in_order(finished: Vec<Finished>) -> Vec<Finished>
    ensures same { IsPermutation finished.items result.items }
    ensures ascending { IsNonDecreasingBy (λ (f : AnyFinished). f.goal) result.items }
{
    let mut sorted = finished;
    sorted.sort_unstable_by_key(|one| one.goal);
    sorted
}

/// Their words, their answers and the workers that finished them.
pub fn lists_of(
    alloc: Global,
    finished: &[Finished],
) -> Result<(List<u64>, Answers, List<u32>), AllocError>
    ensures goals { IfOk result (λ lists. lists.0 ≡ map (λ (f : AnyFinished). f.goal) finished.now) }
    ensures answers { IfOk result (λ lists. lists.1.list ≡ map told_of finished.now) }
    ensures workers { IfOk result (λ lists. lists.2 ≡ map (λ (f : AnyFinished). f.who) finished.now) }
{
    let mut goals = Vec::with_capacity(alloc, finished.len())?;
    let mut answers = Vec::with_capacity(alloc, finished.len())?;
    let mut who = Vec::with_capacity(alloc, finished.len())?;
    for one in finished {
        goals.push(one.goal)?;
        answers.push(told(Goal(one.goal), one.answer))?;
        who.push(one.who)?;
    }
    let list = List::of(answers);
    Ok((List::of(goals), Answers { list }, List::of(who)))
}

/// What the two words of an answer tell: that there is no plan where the cost is the greatest number.
pub fn told(goal: Goal, answer: Answer) -> Answered
    ensures { result ≡ told_with goal.0 answer }
{
    Answered {
        goal,
        node: Node(answer.node),
        cost: if answer.cost == u64::MAX {
            None
        } else {
            Some(answer.cost)
        },
    }
}
