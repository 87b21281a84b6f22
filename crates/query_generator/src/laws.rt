//! What holds of every query that is generated.
ghost use Rattle.std.specs.Prelude.{ℕ, ◌≤◌, length};
ghost use Rattle.query_core.specs.Results.{AreOptions};
ghost use Rattle.query_core.specs.declared.options.Options.{Options};
ghost use Rattle.query_core.specs.declared.query.Query.{Query};
ghost use Rattle.request_props.specs.Numbered.{lists_of, orders_of};
ghost use Rattle.sql_bind.specs.Binding.{IsBound};
ghost use Rattle.sql_reader.specs.declared.syntax.Select.{Select};
ghost use Rattle.query_generator.specs.declared.shape.GenShape.{GenShape};
ghost use Rattle.query_generator.specs.Catalog.{catalog_of};
ghost use Rattle.query_generator.specs.ReadAs.{IsReadAs};

use sql_bind::bound_queries_are_there;
use sql_reader::one_outcome;

/// What a generated query's text is read as is bound over the catalogue of whatever number, by
/// any options, to a query with at most 60 hashed lists and at most 60 orders.
pub fn generated_queries_are_bound()
    ensures there { (number tables : ℕ) (shape : GenShape) (options : Options) (select : Select) →
        AreOptions options → IsReadAs shape tables select →
        (query : Query) × IsBound select (catalog_of number tables) options query }
    ensures few_lists { (number tables : ℕ) (shape : GenShape) (options : Options) (select : Select) →
        IsReadAs shape tables select → (query : Query) →
        IsBound select (catalog_of number tables) options query → length (lists_of query) ≤ 60 }
    ensures few_orders { (number tables : ℕ) (shape : GenShape) (options : Options) (select : Select) →
        IsReadAs shape tables select → (query : Query) →
        IsBound select (catalog_of number tables) options query → length (orders_of query) ≤ 60 }
{
    one_outcome();
    bound_queries_are_there();
}
