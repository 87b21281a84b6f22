//! The ways in which physical operators work.
#![tactic(auto)]

ghost use Rattle.std.specs.Prelude.{◌≡◌};
ghost use Rattle.plan_space.specs.Ways.{way_of as the_way_of};

use query_core::{Access, KeyParts, Physical};

/// How an operator works, with the groups that it stands on.
#[derive(Clone, Copy)]
pub enum Way {
    /// It reads a table's rows where they lie: in no order, or in that of an index.
    Reads(Access),
    /// It passes on what it makes of each row of the child, where that lies.
    Passes(Kept, KeyParts),
    /// It joins the rows of the left child with those of the right one.
    Joins(JoinBy, KeyParts, KeyParts),
    /// It makes the groups of GROUP BY.
    Groups(GroupBy, KeyParts),
}

/// Which rows are passed on.
#[derive(Clone, Copy)]
pub enum Kept {
    /// All rows, wherever they lie, in their order.
    Rows,
    /// Rows that are shared out among the segments, in no order.
    SpreadRows,
}

/// How rows are joined.
#[derive(Clone, Copy)]
pub enum JoinBy {
    Hashing,
    Merging,
    Looping,
}

/// How rows are grouped.
#[derive(Clone, Copy)]
pub enum GroupBy {
    Hashing,
    /// They come in an order.
    Ordered,
}

/// The operator's way of working.
pub fn way_of(operator: Physical) -> Way
    ensures { result ≡ the_way_of operator }
{
    match operator {
        Physical::Scan => Way::Reads(Access::Direct),
        Physical::IndexScan(index) => Way::Reads(Access::Index(index)),
        Physical::Filter(child) => Way::Passes(Kept::Rows, child),
        Physical::IndexSeek(index) => Way::Reads(Access::Index(index)),
        Physical::HashJoin(left, right) => Way::Joins(JoinBy::Hashing, left, right),
        Physical::MergeJoin(left, right) => Way::Joins(JoinBy::Merging, left, right),
        Physical::LoopJoin(left, right) => Way::Joins(JoinBy::Looping, left, right),
        Physical::HashAgg(child) => Way::Groups(GroupBy::Hashing, child),
        Physical::StreamAgg(child) => Way::Groups(GroupBy::Ordered, child),
        Physical::PartialAgg(child) => Way::Passes(Kept::SpreadRows, child),
    }
}
