//! The lines of the table of physical expressions: what each needs of its children and what it gives.
#![tactic(auto)]

use request_props::{Dist, GivenDist, GivenOrder, Request};

/// How the distribution of an expression goes with that of its left child.
#[derive(Clone, Copy)]
pub enum LeftDist {
    /// It is this one, over a child that meets the other.
    Fixed(GivenDist, Dist),
    /// It is by the hash of the list of this number, over a child that is so. The list has to be
    /// one of GROUP BY columns.
    Grouped(u32),
    /// It is the child's.
    Same,
    /// It is the child's, which is spread.
    SameSpread,
}

/// How the order of an expression goes with that of its left child.
#[derive(Clone, Copy)]
pub enum LeftOrder {
    /// It is this one, over a child in the order of the number.
    Fixed(GivenOrder, u32),
    /// It is the child's.
    Same,
}

/// What an expression in a mode needs of its children, and what it gives over them.
#[derive(Clone, Copy)]
pub enum Line {
    /// Without children it gives this.
    Leaf(GivenDist, GivenOrder),
    /// Over one child.
    Above(LeftDist, LeftOrder),
    /// Over a left child, and over a right child for this request.
    Beside(LeftDist, LeftOrder, Request),
}
