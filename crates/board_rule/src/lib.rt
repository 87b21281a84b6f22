//! What holds of a shared table of goals between any two steps on it, and what each kind of step may do and tells.
#![tactic(auto)]

mod hands;
mod law;
mod plays;
mod rules;

pub use hands::Hands;
pub use law::{Apart, Law, Setup, Together};
pub use plays::{
    BeginWait, Claim, ClearBit, Close, DropWait, Fill, Look, Put, PutWait, ReadNext, SeeHead,
    StoreCost, StoreNext, StoreNode, StoreWho, Suspend,
};
pub use rules::GoalRules;
