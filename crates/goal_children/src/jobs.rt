//! What a member of a group is looked at for.
#![tactic(auto)]

use goal_space::Phase;
use request_props::Request;

/// What a member of a group may be looked at for.
#[derive(Clone, Copy)]
pub enum MemberJob {
    /// A logical member, for what rules make of it.
    Transform(Phase),
    /// A physical member, for plans that meet the request.
    Serve(Request),
}
