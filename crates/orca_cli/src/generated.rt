//! The query of what is generated.
ghost use Rattle.std.specs.Prelude.{◌≡◌, IfOk, IfErr, ⊤};
ghost use Rattle.query_core.specs.Catalog.{IsCatalog};
ghost use Rattle.query_core.specs.Results.{AreOptions};
ghost use Rattle.query_generator.specs.Catalog.{catalog_of};
ghost use Rattle.query_generator.specs.Generated.{IsQueryText};
ghost use Rattle.command_line.specs.Numbers.{IsWithin};
ghost use Rattle.orca_cli.specs.Generated.{IsGenerated};
ghost use Rattle.orca_cli.specs.Views.{IsAsked};

use crate::asked::Asked;
use crate::ending::End;
use crate::queries::query_of_text;
use catalog_json::{CatalogFault, read_catalog};
use command_line::{GenInput, GenTask};
use query_core::{Catalog, Options};
use query_generator::{generate, generated_queries_are_bound};
use std::alloc::{AllocError, Global};

/// The query that is made for the task.
pub fn query_of_input(alloc: Global, made: GenTask, options: Options) -> Result<Asked, AllocError>
    requires { AreOptions options }
    ensures { IfOk result (IsAsked (IsGenerated made.input options)) }
{
    let GenInput {
        number,
        tables,
        shape,
    } = made.input;
    let (bytes, text) = generate(alloc, number, tables, shape)?;
    match read_catalog(alloc, &bytes) {
        Ok(catalog) => query_over(alloc, made.input, &catalog, &text, options),
        Err(CatalogFault::Memory) => Err(AllocError),
        // The bytes say a catalogue.
        Err(_) => unreachable!(),
    }
}

// The same over the catalogue.
fn query_over(
    alloc: Global,
    input: GenInput,
    catalog: &Catalog,
    text: &[u8],
    options: Options,
) -> Result<Asked, AllocError>
    requires few { IsWithin 1 8 input.tables }
    requires catalogue { IsCatalog catalog.now }
    requires made { catalog.now ≡ catalog_of input.number input.tables }
    requires text { IsQueryText input.shape input.tables text.now }
    requires options { AreOptions options }
    ensures { IfOk result (IsAsked (IsGenerated input options)) }
{
    // What is generated is bound, and a text that asks for a query isn't refused.
    generated_queries_are_bound();
    sql_reader::one_outcome();
    match query_of_text(alloc, text, catalog, options) {
        Ok(asked) => Ok(asked),
        Err(End::Memory) => Err(AllocError),
        Err(End::Told(_)) => unreachable!(),
    }
}
