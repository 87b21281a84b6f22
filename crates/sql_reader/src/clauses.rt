//! The clauses of a query, and a whole query.

ghost use Rattle.std.specs.Prelude.{◌≡◌};
ghost use Rattle.sql_reader.specs.Reading.{items_at, tables_at, preds_at, group_columns_at, keys_at, where_at};
ghost use Rattle.sql_reader.specs.Reading.{group_by_at, order_by_at, body_at, query_at};
ghost use Rattle.sql_reader.specs.Doing.{Does};

use crate::faults::Limit;
use crate::lists::elements;
use crate::stops::Stop;
use crate::syntax::{ColRef, FromItem, SelItem, SelKey, SelPred, Select};
use crate::token_stream::TokenStream;
use crate::tokens::Mark;
use orca_base::List;
use std::alloc::Global;

#[tactic(auto, unfolding(crate::specs::Reading::items_at))]
fn items(alloc: Global, tokens: &mut TokenStream) -> Result<List<SelItem>, Stop>
    ensures { Does (items_at tokens.old) result tokens.new }
{
    elements::<SelItem>(alloc, Mark::Comma, Limit::Items, 60, tokens)
}

#[tactic(auto, unfolding(crate::specs::Reading::tables_at))]
fn tables(alloc: Global, tokens: &mut TokenStream) -> Result<List<FromItem>, Stop>
    ensures { Does (tables_at tokens.old) result tokens.new }
{
    elements::<FromItem>(alloc, Mark::Comma, Limit::Tables, 10, tokens)
}

#[tactic(auto, unfolding(crate::specs::Reading::preds_at))]
fn preds(alloc: Global, tokens: &mut TokenStream) -> Result<List<SelPred>, Stop>
    ensures { Does (preds_at tokens.old) result tokens.new }
{
    elements::<SelPred>(alloc, Mark::And, Limit::Predicates, 40, tokens)
}

#[tactic(auto, unfolding(crate::specs::Reading::group_columns_at))]
fn group_columns(alloc: Global, tokens: &mut TokenStream) -> Result<List<ColRef>, Stop>
    ensures { Does (group_columns_at tokens.old) result tokens.new }
{
    elements::<ColRef>(alloc, Mark::Comma, Limit::GroupBy, 8, tokens)
}

#[tactic(auto, unfolding(crate::specs::Reading::keys_at))]
fn keys(alloc: Global, tokens: &mut TokenStream) -> Result<List<SelKey>, Stop>
    ensures { Does (keys_at tokens.old) result tokens.new }
{
    elements::<SelKey>(alloc, Mark::Comma, Limit::OrderBy, 8, tokens)
}

#[tactic(auto, unfolding(crate::specs::Reading::where_at))]
fn where_clause(alloc: Global, tokens: &mut TokenStream) -> Result<List<SelPred>, Stop>
    ensures { Does (where_at tokens.old) result tokens.new }
{
    if tokens.mark(Mark::Where).is_none() {
        return Ok(List::new(alloc));
    }
    preds(alloc, tokens)
}

#[tactic(auto, unfolding(crate::specs::Reading::group_by_at))]
fn group_by_clause(alloc: Global, tokens: &mut TokenStream) -> Result<List<ColRef>, Stop>
    ensures { Does (group_by_at tokens.old) result tokens.new }
{
    if tokens.mark(Mark::Group).is_none() {
        return Ok(List::new(alloc));
    }
    tokens.expect_mark(Mark::By)?;
    group_columns(alloc, tokens)
}

#[tactic(auto, unfolding(crate::specs::Reading::order_by_at))]
fn order_by_clause(alloc: Global, tokens: &mut TokenStream) -> Result<List<SelKey>, Stop>
    ensures { Does (order_by_at tokens.old) result tokens.new }
{
    if tokens.mark(Mark::Order).is_none() {
        return Ok(List::new(alloc));
    }
    tokens.expect_mark(Mark::By)?;
    keys(alloc, tokens)
}

/// What follows the select list.
#[tactic(auto, unfolding(crate::specs::Reading::body_at, crate::specs::Reading::end_at))]
fn body(alloc: Global, items: List<SelItem>, tokens: &mut TokenStream) -> Result<Select, Stop>
    ensures { Does (body_at items tokens.old) result tokens.new }
{
    tokens.expect_mark(Mark::From)?;
    let from = tables(alloc, tokens)?;
    let preds = where_clause(alloc, tokens)?;
    let group_by = group_by_clause(alloc, tokens)?;
    let order_by = order_by_clause(alloc, tokens)?;
    let _semicolon = tokens.mark(Mark::Semicolon);
    Ok(Select {
        items,
        from,
        preds,
        group_by,
        order_by,
    })
}

#[tactic(auto, unfolding(crate::specs::Reading::query_at))]
pub fn query(alloc: Global, tokens: &mut TokenStream) -> Result<Select, Stop>
    ensures { Does (query_at tokens.old) result tokens.new }
{
    tokens.expect_mark(Mark::Select)?;
    let items = items(alloc, tokens)?;
    body(alloc, items, tokens)
}
