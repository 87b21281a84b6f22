use orca_base::Text;

/// A comparison.
#[derive(Clone, Copy)]
pub enum CmpOp {
    Eq,
    Ne,
    Lt,
    Le,
    Gt,
    Ge,
}

/// The right side of a predicate.
#[derive(Drop)]
pub enum Operand {
    /// An item, by its place in the query's items.
    Item(u32),
    Int(i64),
    Str(Text),
}

/// A predicate: an item, a comparison and an operand.
#[derive(Drop)]
pub struct Pred {
    pub left: u32,
    pub op: CmpOp,
    pub right: Operand,
}

/// Two tables of a query that a predicate, or a TRUE link, joins.
#[derive(Clone, Copy)]
pub struct Link {
    pub a: u32,
    pub b: u32,
}
