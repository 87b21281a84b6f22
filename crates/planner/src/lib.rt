//! The least plan of a query, for a program that has the optimiser as a library. What a host names of the crates below
//! is had from here.
#![tactic(auto)]

mod columns;
mod fault;
mod laws;
mod node;
mod nodes;
mod planning;
mod settings;

pub use catalog_json::{CatalogFault, CatalogVersion, read_catalog};
pub use fault::PlanFault;
pub use laws::{costs_add_up, nodes_tell_the_plan};
pub use node::{LeastPlan, PlanColumn, PlanNode, Planned};
pub use plan_space::{Enforcer, Mode, NodeKind};
pub use planning::{plan_select, plan_select_by_crew, plan_sql, plan_sql_by_crew};
pub use query_core::{
    Catalog, ColumnInfo, Options, Physical, PhysicalExpr, Placing, Query, RootDist, TableInfo,
    table_in,
};
pub use request_props::PropsFault;
pub use settings::Settings;
pub use sql_bind::BindFault;
pub use sql_reader::{Select, SqlFault};
