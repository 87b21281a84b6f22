//! The plans that were made of the last lines, and those of them that a node stands over.
#![tactic(auto)]

ghost use Rattle.std.specs.Prelude.{◌≡◌, ◌↔◌, ◌<◌, IsTrue, reverse};
ghost use Rattle.plan_tree.specs.Seen.{kids_seen};
ghost use Rattle.text_check.specs.Grown.{IsTaken, IsPopped, IsFirstDeeper, grown_kids, kids_list};

use plan_space::Kid;
use plan_tree::{Kids, Plan};

/// A plan, the level of its line, and what is seen of it.
#[derive(Drop)]
pub struct Grown {
    pub level: u32,
    pub plan: Plan,
    pub kid: Kid,
}

/// The plans that a node stands over.
#[derive(Drop)]
pub enum TakenKids {
    Nothing,
    One(Grown),
    /// The left one and the right one.
    Two(Grown, Grown),
}

impl TakenKids {
    /// What a node sees of them.
    pub fn kids(&self) -> Kids
        ensures { kids_seen result ≡ grown_kids (kids_list self.now) }
    {
        match self {
            TakenKids::Nothing => Kids::Nothing,
            TakenKids::One(only) => Kids::One(only.kid),
            TakenKids::Two(left, right) => Kids::Two(left.kid, right.kid),
        }
    }
}

/// Takes off the plans that lie deeper than this level, where they are at most two. The first plan
/// is the last of the list.
pub fn take_kids(grown: &mut Vec<Grown>, level: u32) -> Option<TakenKids>
    ensures { IsTaken level (reverse grown.old.items) (reverse grown.new.items) result }
{
    let Some(left) = take_deeper(grown, level) else {
        return Some(TakenKids::Nothing);
    };
    let Some(right) = take_deeper(grown, level) else {
        return Some(TakenKids::One(left));
    };
    match take_deeper(grown, level) {
        Some(_) => None,
        None => Some(TakenKids::Two(left, right)),
    }
}

// The first plan, if it lies deeper than this level.
fn take_deeper(grown: &mut Vec<Grown>, level: u32) -> Option<Grown>
    ensures { IsPopped level (reverse grown.old.items) (reverse grown.new.items) result }
{
    if is_deeper(grown.as_slice(), level) {
        grown.pop()
    } else {
        None
    }
}

// Whether the first plan lies deeper than this level.
fn is_deeper(grown: &[Grown], level: u32) -> bool
    ensures { IsTrue result ↔ IsFirstDeeper level (reverse grown.now) }
{
    match grown.split_last() {
        Some((first, _)) => level < first.level,
        None => false,
    }
}
