//! What nodes see of the plans below them.
#![tactic(auto)]

use query_core::KeyParts;
use request_props::Given;

/// What a node sees of a plan below it: the plan's group, and what it gives.
#[derive(Clone, Copy)]
pub struct Kid {
    pub group: KeyParts,
    pub given: Given,
}
