//! Why a catalogue, a query, the text of a plan or a dump is refused, as text. Want of memory has none, and stays what
//! it is.
ghost use Rattle.std.specs.Prelude.{◌≡◌, ◌≢◌, IfOk, string_bytes};
ghost use Rattle.orca_cli.specs.Texts.{catalog_cause, limit_name, sql_cause, bind_cause, props_cause, plan_cause};
ghost use Rattle.orca_cli.specs.Texts.{dump_cause};

use catalog_json::CatalogFault;
use dump_replay::DumpFault;
use request_props::PropsFault;
use sql_bind::BindFault;
use sql_reader::{Limit, SqlFault};
use std::alloc::{AllocError, Global};
use text_check::TextFault;

/// Why bytes are no catalogue, with the JSON pointer of the place.
pub fn catalog_fault_text(alloc: Global, fault: &CatalogFault) -> Result<String, AllocError>
    ensures text { IfOk result (λ text. string_bytes text ≡ catalog_cause fault.now) }
    ensures not_memory { IfOk result (λ text. fault.now ≢ CatalogFault.Memory) }
{
    match fault {
        CatalogFault::TooLong => String::from_str(alloc, "too long"),
        CatalogFault::NotJson => String::from_str(alloc, "not JSON"),
        CatalogFault::Shape { path } => format!(in alloc; "shape at {}", path.as_str()),
        CatalogFault::Version { found } => format!(in alloc; "version {found}"),
        CatalogFault::Range { path } => format!(in alloc; "range at {}", path.as_str()),
        CatalogFault::Twice { path } => format!(in alloc; "twice at {}", path.as_str()),
        CatalogFault::UnknownColumn { path } => {
            format!(in alloc; "unknown column at {}", path.as_str())
        }
        CatalogFault::Memory => Err(AllocError),
    }
}

fn limit_text(limit: Limit) -> &'static str
    ensures { result.now ≡ limit_name limit }
{
    match limit {
        Limit::Items => "items",
        Limit::Tables => "tables",
        Limit::Predicates => "predicates",
        Limit::GroupBy => "group columns",
        Limit::OrderBy => "order keys",
    }
}

/// Why a text is no query, with the offset of the place.
pub fn sql_fault_text(alloc: Global, fault: SqlFault) -> Result<String, AllocError>
    ensures text { IfOk result (λ text. string_bytes text ≡ sql_cause fault) }
    ensures not_memory { IfOk result (λ text. fault ≢ SqlFault.Memory) }
{
    match fault {
        SqlFault::TooLong => String::from_str(alloc, "too long"),
        SqlFault::NotAscii { at } => format!(in alloc; "not ASCII at {at}"),
        SqlFault::Token { at } => format!(in alloc; "token at {at}"),
        SqlFault::Grammar { at } => format!(in alloc; "grammar at {at}"),
        SqlFault::TooMany { what, at } => {
            format!(in alloc; "too many {} at {at}", limit_text(what))
        }
        SqlFault::Memory => Err(AllocError),
    }
}

/// Why the names of a query can't be bound, with the offset of the place.
pub fn bind_fault_text(alloc: Global, fault: BindFault) -> Result<String, AllocError>
    ensures text { IfOk result (λ text. string_bytes text ≡ bind_cause fault) }
    ensures not_memory { IfOk result (λ text. fault ≢ BindFault.Memory) }
{
    match fault {
        BindFault::UnknownTable { at } => format!(in alloc; "unknown table at {at}"),
        BindFault::TwiceAlias { at } => format!(in alloc; "name twice at {at}"),
        BindFault::UnknownColumn { at } => format!(in alloc; "unknown column at {at}"),
        BindFault::Ambiguous { at } => format!(in alloc; "ambiguous column at {at}"),
        BindFault::NotGrouped { at } => format!(in alloc; "not grouped at {at}"),
        BindFault::TooManyItems { found } => format!(in alloc; "too many columns: {found}"),
        BindFault::Memory => Err(AllocError),
    }
}

/// Why the hashed lists and orders of a query have no numbers, with how many there are.
pub fn props_fault_text(alloc: Global, fault: PropsFault) -> Result<String, AllocError>
    ensures text { IfOk result (λ text. string_bytes text ≡ props_cause fault) }
    ensures not_memory { IfOk result (λ text. fault ≢ PropsFault.Memory) }
{
    match fault {
        PropsFault::TooManyLists { found } => format!(in alloc; "too many hashed lists: {found}"),
        PropsFault::TooManyOrders { found } => format!(in alloc; "too many orders: {found}"),
        PropsFault::Memory => Err(AllocError),
    }
}

/// Why a text is no valid plan of a query, with the line of the place.
pub fn plan_fault_text(alloc: Global, fault: TextFault) -> Result<String, AllocError>
    ensures text { IfOk result (λ text. string_bytes text ≡ plan_cause fault) }
    ensures not_memory { IfOk result (λ text. fault ≢ TextFault.Memory) }
{
    match fault {
        TextFault::TooLong => String::from_str(alloc, "too long"),
        TextFault::Form { line } => format!(in alloc; "form at line {line}"),
        TextFault::TooLarge { nodes } => format!(in alloc; "too large: {nodes}"),
        TextFault::Kids { line } => format!(in alloc; "kids at line {line}"),
        TextFault::Member { line } => format!(in alloc; "member at line {line}"),
        TextFault::Needs { line } => format!(in alloc; "needs at line {line}"),
        TextFault::Request => String::from_str(alloc, "root request"),
        TextFault::Number { line } => format!(in alloc; "number at line {line}"),
        TextFault::Memory => Err(AllocError),
    }
}

/// Why there is no dump, with the number of the line.
pub fn dump_fault_text(alloc: Global, fault: DumpFault) -> Result<String, AllocError>
    ensures text { IfOk result (λ text. string_bytes text ≡ dump_cause fault) }
    ensures not_memory { IfOk result (λ text. fault ≢ DumpFault.Memory) }
{
    match fault {
        DumpFault::TooLong => String::from_str(alloc, "too long"),
        DumpFault::Line { line } => format!(in alloc; "line {line}"),
        DumpFault::Memory => Err(AllocError),
    }
}
