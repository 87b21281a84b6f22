//! A query as it is written, before names are looked up.

use orca_base::{List, Text};

/// A column as it is written: `name`, or `table.name`.
#[derive(Drop)]
pub struct ColRef {
    /// The offset of its first token.
    pub at: u32,
    pub table: Option<Text>,
    pub name: Text,
}

#[derive(Clone, Copy)]
pub enum SelFunc {
    CountAll,
    Count,
    Sum,
    Min,
    Max,
}

#[derive(Drop)]
pub enum SelExpr {
    Column(ColRef),
    /// The argument is absent for `COUNT(*)` alone.
    Agg { func: SelFunc, arg: Option<ColRef> },
}

/// An element of the select list.
#[derive(Drop)]
pub struct SelItem {
    pub expr: SelExpr,
    /// The offset of the output name, or 0 where there is none.
    pub name_at: u32,
    pub name: Option<Text>,
}

/// A table of FROM.
#[derive(Drop)]
pub struct FromItem {
    /// The offset of the table's name.
    pub at: u32,
    pub table: Text,
    /// The offset of the alias, or 0 where there is none.
    pub alias_at: u32,
    pub alias: Option<Text>,
}

#[derive(Clone, Copy)]
pub enum SelOp {
    Eq,
    Ne,
    Lt,
    Le,
    Gt,
    Ge,
}

#[derive(Drop)]
pub enum SelOperand {
    Column(ColRef),
    Int(i64),
    Str(Text),
}

/// A comparison in WHERE.
#[derive(Drop)]
pub struct SelPred {
    pub left: ColRef,
    pub op: SelOp,
    pub right: SelOperand,
}

/// A key of ORDER BY.
#[derive(Drop)]
pub struct SelKey {
    pub col: ColRef,
    pub desc: bool,
}

/// A query. Clauses that are absent are empty lists.
#[derive(Drop)]
pub struct Select {
    pub items: List<SelItem>,
    pub from: List<FromItem>,
    pub preds: List<SelPred>,
    pub group_by: List<ColRef>,
    pub order_by: List<SelKey>,
}
