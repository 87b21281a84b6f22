// The kinds of step, each with what it tells.
ghost use Rattle.board_rule.specs.Plays.{TellsLook, TellsPut, TellsClaim, TellsSuspend, TellsClose, TellsStoreCost};
ghost use Rattle.board_rule.specs.Plays.{TellsStoreNode, TellsStoreWho, TellsFill, TellsBeginWait, TellsSeeHead};
ghost use Rattle.board_rule.specs.Plays.{TellsStoreNext, TellsPutWait, TellsReadNext, TellsClearBit, TellsDropWait};

use crate::hands::Hands;
use crate::rules::GoalRules;
use atomic_table::Play;

/// A load of any word.
pub struct Look;

impl<R: GoalRules> Play<(), Hands<R>> for Look {
    ghost then = { TellsLook R.meaning };
}

/// A compare-exchange of a cell from 0 to an entry.
pub struct Put;

impl<R: GoalRules> Play<(), Hands<R>> for Put {
    ghost then = { TellsPut R.meaning };
}

/// A compare-exchange of a run word from 0 to 256.
pub struct Claim;

impl<R: GoalRules> Play<(), Hands<R>> for Claim {
    ghost then = { TellsClaim R.meaning };
}

/// A fetch-and that clears the held bit of a run word.
pub struct Suspend;

impl<R: GoalRules> Play<(), Hands<R>> for Suspend {
    ghost then = { TellsSuspend R.meaning };
}

/// A swap of a head to 2^63.
pub struct Close;

impl<R: GoalRules> Play<(), Hands<R>> for Close {
    ghost then = { TellsClose R.meaning };
}

/// A store of an answer's cost.
pub struct StoreCost;

impl<R: GoalRules> Play<(), Hands<R>> for StoreCost {
    ghost then = { TellsStoreCost R.meaning };
}

/// A store of an answer's node.
pub struct StoreNode;

impl<R: GoalRules> Play<(), Hands<R>> for StoreNode {
    ghost then = { TellsStoreNode R.meaning };
}

/// A store of the worker that finishes a goal, plus 1.
pub struct StoreWho;

impl<R: GoalRules> Play<(), Hands<R>> for StoreWho {
    ghost then = { TellsStoreWho R.meaning };
}

/// A store of 1 in the full word.
pub struct Fill;

impl<R: GoalRules> Play<(), Hands<R>> for Fill {
    ghost then = { TellsFill R.meaning };
}

/// A fetch-or that sets the bit of a right's next wait.
pub struct BeginWait;

impl<R: GoalRules> Play<(), Hands<R>> for BeginWait {
    ghost then = { TellsBeginWait R.meaning };
}

/// A load of a child's head, for the wait that is being put in.
pub struct SeeHead;

impl<R: GoalRules> Play<(), Hands<R>> for SeeHead {
    ghost then = { TellsSeeHead R.meaning };
}

/// A store of a waiter's next word, for the child's head as last seen.
pub struct StoreNext;

impl<R: GoalRules> Play<(), Hands<R>> for StoreNext {
    ghost then = { TellsStoreNext R.meaning };
}

/// A compare-exchange of a child's head to one with one waiter more.
pub struct PutWait;

impl<R: GoalRules> Play<(), Hands<R>> for PutWait {
    ghost then = { TellsPutWait R.meaning };
}

/// A load of the next word of the first waiter of a closed list.
pub struct ReadNext;

impl<R: GoalRules> Play<(), Hands<R>> for ReadNext {
    ghost then = { TellsReadNext R.meaning };
}

/// A fetch-and that clears the bit of the first waiter of a closed list.
pub struct ClearBit;

impl<R: GoalRules> Play<(), Hands<R>> for ClearBit {
    ghost then = { TellsClearBit R.meaning };
}

/// A fetch-and that clears the bit of a wait whose child is finished already.
pub struct DropWait;

impl<R: GoalRules> Play<(), Hands<R>> for DropWait {
    ghost then = { TellsDropWait R.meaning };
}
