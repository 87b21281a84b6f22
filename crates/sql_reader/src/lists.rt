//! Lists with a mark between their elements, up to a limit.

ghost use Rattle.std.specs.Prelude.{◌≡◌};
ghost use Rattle.sql_reader.specs.Steps.{elements_at, refused};
ghost use Rattle.sql_reader.specs.Reading.{starts_name, starts_item, item_at, table_at, pred_at, column_at, key_at};
ghost use Rattle.sql_reader.specs.Doing.{Does};

use crate::elements::{column, item, key, pred, table};
use crate::faults::Limit;
use crate::stops::Stop;
use crate::syntax::{ColRef, FromItem, SelItem, SelKey, SelPred};
use crate::token_stream::TokenStream;
use crate::tokens::{Kind, Mark, Token};
use orca_base::List;
use std::alloc::Global;

/// What a list can hold.
pub trait Element: Drop + Sized {
    ghost use Rattle.std.specs.Prelude.{List, Bool};
    ghost use Rattle.sql_reader.specs.declared.tokens.Token.{Token};
    ghost use Rattle.sql_reader.specs.Steps.{Step};

    ghost reads: { List Token → Step Self };

    ghost begins: { Token → Bool };

    fn read(tokens: &mut TokenStream) -> Result<Self, Stop>
        ensures { Does (reads tokens.old) result tokens.new };

    fn begins_with(token: &Token) -> bool
        ensures { result ≡ begins token.now };
}

fn is_name(token: &Token) -> bool
    ensures { result ≡ starts_name token.now }
{
    matches!(token.kind, Kind::Name(_))
}

fn is_name_or_function(token: &Token) -> bool
    ensures { result ≡ starts_item token.now }
{
    matches!(token.kind, Kind::Name(_) | Kind::Function(_))
}

impl Element for SelItem {
    ghost reads = { item_at };

    ghost begins = { starts_item };

    fn read(tokens: &mut TokenStream) -> Result<SelItem, Stop> {
        item(tokens)
    }

    fn begins_with(token: &Token) -> bool {
        is_name_or_function(token)
    }
}

impl Element for FromItem {
    ghost reads = { table_at };

    ghost begins = { starts_name };

    fn read(tokens: &mut TokenStream) -> Result<FromItem, Stop> {
        table(tokens)
    }

    fn begins_with(token: &Token) -> bool {
        is_name(token)
    }
}

impl Element for SelPred {
    ghost reads = { pred_at };

    ghost begins = { starts_name };

    fn read(tokens: &mut TokenStream) -> Result<SelPred, Stop> {
        pred(tokens)
    }

    fn begins_with(token: &Token) -> bool {
        is_name(token)
    }
}

impl Element for ColRef {
    ghost reads = { column_at };

    ghost begins = { starts_name };

    fn read(tokens: &mut TokenStream) -> Result<ColRef, Stop> {
        column(tokens)
    }

    fn begins_with(token: &Token) -> bool {
        is_name(token)
    }
}

impl Element for SelKey {
    ghost reads = { key_at };

    ghost begins = { starts_name };

    fn read(tokens: &mut TokenStream) -> Result<SelKey, Stop> {
        key(tokens)
    }

    fn begins_with(token: &Token) -> bool {
        is_name(token)
    }
}

/// One element more than the limit allows.
fn refuse<E: Element>(what: Limit, tokens: &TokenStream) -> Result<List<E>, Stop>
    ensures { Does (refused E.begins what tokens.now) result tokens.now }
{
    match tokens.peek() {
        Some(token) if E::begins_with(token) => Err(Stop::TooMany(what)),
        _ => Err(Stop::Unexpected),
    }
}

/// One element or more, and no more than there is room for.
pub fn elements<E: Element>(
    alloc: Global,
    separator: Mark,
    what: Limit,
    room: u32,
    tokens: &mut TokenStream,
) -> Result<List<E>, Stop>
    ensures { Does (elements_at separator E.begins E.reads what room tokens.old) result tokens.new }
{
    let mut elements = List::new(alloc);
    for _ in 0..room {
        let element = E::read(tokens)?;
        elements.push(element)?;
        if tokens.mark(separator).is_none() {
            return Ok(elements);
        }
    }
    refuse::<E>(what, tokens)
}
