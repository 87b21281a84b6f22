//! Answers, and the lesser of two.
#![tactic(auto)]

ghost use Rattle.std.specs.Prelude.{◌≡◌};
ghost use Rattle.best_answers.specs.Answers.{is_lesser as the_is_lesser, lesser as the_lesser};

use plan_tree::Node;

/// What a least plan costs, and the node at its root.
#[derive(Clone, Copy, PartialEq, Eq)]
pub struct Best {
    pub cost: u64,
    pub node: Node,
}

/// Of two answers the one that costs less, and where they cost the same the one with the lesser
/// node.
#[inline(always)]
pub fn lesser(first: Option<Best>, second: Option<Best>) -> Option<Best>
    ensures { result ≡ the_lesser first second }
{
    match (first, second) {
        (Some(one), Some(other)) if is_lesser(other, one) => second,
        (Some(_), _) => first,
        (None, _) => second,
    }
}

#[inline(always)]
fn is_lesser(first: Best, second: Best) -> bool
    ensures { result ≡ the_is_lesser first second }
{
    first.cost < second.cost || first.cost == second.cost && first.node.0 < second.node.0
}
