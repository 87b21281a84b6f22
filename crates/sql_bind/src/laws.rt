//! What follows from what the names of a query are bound to.
ghost use Rattle.std.specs.Prelude.{◌≡◌, ◌≢◌, List, Ok, Err};
ghost use Rattle.query_core.specs.Catalog.{IsCatalog};
ghost use Rattle.query_core.specs.Results.{AreOptions};
ghost use Rattle.query_core.specs.declared.catalog.Catalog.{Catalog};
ghost use Rattle.query_core.specs.declared.options.Options.{Options};
ghost use Rattle.query_core.specs.declared.predicate.Link.{Link};
ghost use Rattle.query_core.specs.declared.query.Query.{Query};
ghost use Rattle.sql_reader.specs.declared.syntax.Select.{Select};
ghost use Rattle.sql_bind.specs.declared.fault.BindFault.{BindFault};
ghost use Rattle.sql_bind.specs.declared.parts.Parts.{Parts};
ghost use Rattle.sql_bind.specs.Used.{used_by as the_used_by};
ghost use Rattle.sql_bind.specs.UsedColumns.{AreUsedColumns};
ghost use Rattle.sql_reader.specs.Readable.{IsReadable};
ghost use Rattle.sql_bind.specs.Binding.{binding as the_binding, AreLinksOf, IsBound};

/// A query's names are bound or have a fault of theirs, which is never want of memory. So each fault
/// comes exactly where it is the first, unless memory runs out.
pub fn faults_are_told()
    ensures { (select : Select) (catalog : Catalog) → the_binding select catalog ≢ Err BindFault.Memory }
{}

/// The used columns of a query without a fault: those that it names, and those in the lists of its
/// tables, by table and then by place in the catalogue. Each has one number, and no other column has
/// one.
pub fn used_columns_are_known()
    ensures { (select : Select) (catalog : Catalog) (parts : Parts)
        → IsReadable select → IsCatalog catalog → the_binding select catalog ≡ Ok parts
        → AreUsedColumns parts (the_used_by parts) }
{}

/// A select that is bound without a fault is bound to a query, with whichever links its parts have.
pub fn bound_queries_are_there()
    ensures { (select : Select) (catalog : Catalog) (options : Options) (parts : Parts) (links : List Link)
        → IsReadable select → IsCatalog catalog → AreOptions options
        → the_binding select catalog ≡ Ok parts → AreLinksOf parts links
        → (query : Query) × IsBound select catalog options query }
{}
