//! SQL as it is written: the reader of queries.
#![tactic(auto)]

mod classes;
mod clauses;
mod elements;
mod faults;
mod lexer;
mod lists;
mod pieces;
mod reader;
mod stops;
mod syntax;
mod token_stream;
mod tokens;
mod words;

pub use faults::{Limit, SqlFault};
pub use reader::{one_outcome, read_sql, readings};
pub use syntax::{
    ColRef, FromItem, SelExpr, SelFunc, SelItem, SelKey, SelOp, SelOperand, SelPred, Select,
};
