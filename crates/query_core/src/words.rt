/// The name of a group.
#[derive(Clone, Copy, Debug, PartialEq, Eq)]
pub struct Key(pub u32);

/// What a key stands for. A table is given by its place, a set of tables by its mask.
#[derive(Clone, Copy, Debug, PartialEq, Eq)]
pub enum KeyParts {
    /// The rows of a table.
    Get(u32),
    /// The rows of a table that meet its own predicates.
    Filter(u32),
    /// The join of two or more tables.
    Join(u32),
    /// Groups that are not complete, as each segment makes them.
    Partial,
    /// The groups of GROUP BY.
    Agg,
}

/// A group expression, in one word.
#[derive(Clone, Copy, Debug, PartialEq, Eq)]
pub struct Expr(pub u64);

/// A goal of the search, in one word.
#[derive(Clone, Copy, Debug, PartialEq, Eq)]
pub struct Goal(pub u64);

/// What a goal's word stands for: a kind of job and its subject.
#[derive(Clone, Copy, PartialEq, Eq)]
pub enum GoalParts {
    /// Exploration of a group.
    Exp(Key),
    /// Exploration of a group expression.
    ExpE(Expr),
    /// The rule of this number at a group expression.
    Xf(Expr, u32),
    /// Implementation of a group.
    Imp(Key),
    /// Implementation of a group expression.
    ImpE(Expr),
    /// A group for the request of this code.
    Opt(Key, u32),
    /// A group expression for the request of this code.
    OptE(Expr, u32),
}
