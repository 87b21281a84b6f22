// The rule of the queue of items, and each kind of step: what it does to the pass that makes it, and what the pass
// learns at a full and at an empty queue.
ghost use Rattle.batch_pool.specs.Views.{first_view, after_split, new_view, after_join, spent_view, PassPushes};
ghost use Rattle.batch_pool.specs.Views.{PassPops};
ghost use Rattle.batch_pool.specs.Rule.{KeepsItems, HoldsPushed, HoldsUntaken};

use crate::pass_view::PassView;
use crossbeam_queue::protocol::{Join, Lesson, Outcome, Protocol, Split};

/// The queue and the passes hold each number that was pushed, once.
pub struct ItemRule;

impl Protocol<u32, PassView> for ItemRule {
    ghost holds = { KeepsItems };

    ghost first = { first_view };
}

/// A number is pushed, or the queue is full.
pub struct Push;

impl Outcome<u32, PassView> for Push {
    ghost then = { PassPushes };
}

impl Lesson<u32, PassView> for Push {
    ghost fact = { HoldsPushed };
}

/// A number is taken, or none is found.
pub struct Pop;

impl Outcome<u32, PassView> for Pop {
    ghost then = { PassPops };
}

impl Lesson<u32, PassView> for Pop {
    ghost fact = { HoldsUntaken };
}

/// A new pass gets one part.
pub struct SplitPass;

impl Split<PassView> for SplitPass {
    ghost left = { after_split };

    ghost right = { λ _. new_view };
}

/// A pass takes in another.
pub struct JoinPass;

impl Join<PassView> for JoinPass {
    ghost both = { after_join };

    ghost spent = { spent_view };
}
