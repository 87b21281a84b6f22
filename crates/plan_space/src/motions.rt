//! Which motion brings rows to a distribution, and by which enforcer.
#![tactic(auto)]

ghost use Rattle.std.specs.Prelude.{◌≡◌};
ghost use Rattle.plan_space.specs.Enforcers.{motion_to as the_motion_to, moving as the_moving};
ghost use Rattle.plan_space.specs.Enforcers.{merges_to as the_merges_to, keeps_order as the_keeps_order};
ghost use Rattle.plan_space.specs.Laws.{MotionsBring, NoneMoves, MotionsServe, EnforcersAreFor, EnforcersAsk};

use crate::nodes::{Enforcer, Motion};
use request_props::Dist;

/// The motion that brings rows to the distribution, if one has to.
pub fn motion_to(dist: Dist) -> Option<Motion>
    ensures { result ≡ the_motion_to dist }
{
    match dist {
        Dist::One => Some(Motion::Gather),
        Dist::Spread => None,
        Dist::Copies => Some(Motion::Broadcast),
        Dist::Hashed(list) => Some(Motion::Redistribute(list)),
    }
}

/// The enforcer that moves rows so.
pub fn moving(motion: Motion) -> Enforcer
    ensures { result ≡ the_moving motion }
{
    match motion {
        Motion::Gather => Enforcer::Gather,
        Motion::Broadcast => Enforcer::Broadcast,
        Motion::Redistribute(list) => Enforcer::Redistribute(list),
    }
}

/// Whether an order can be kept while rows are brought to the distribution.
pub fn merges_to(dist: Dist) -> bool
    ensures { result ≡ the_merges_to dist }
{
    match motion_to(dist) {
        Some(motion) => keeps_order(motion),
        None => false,
    }
}

fn keeps_order(motion: Motion) -> bool
    ensures { result ≡ the_keeps_order motion }
{
    match motion {
        Motion::Gather => true,
        Motion::Broadcast => false,
        Motion::Redistribute(_) => false,
    }
}

/// The motion to a distribution brings rows there, by the list that is asked for. None has to where
/// rows may lie on any segments. What a motion brings meets nothing else. Each enforcer for a
/// request is such a motion, a sort or a merge.
pub fn motions_are_known()
    ensures bring { MotionsBring }
    ensures none { NoneMoves }
    ensures serve { MotionsServe }
    ensures enforcers { EnforcersAreFor }
    ensures asks { EnforcersAsk }
{}
