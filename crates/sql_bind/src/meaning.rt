//! What a reference to a column means, in other words than those by which it is found.
ghost use Rattle.std.specs.Prelude.{List};
ghost use Rattle.sql_reader.specs.declared.syntax.ColRef.{ColRef};
ghost use Rattle.sql_bind.specs.Scope.{FromTable};
ghost use Rattle.sql_bind.specs.Columns.{column_of as the_column_of};
ghost use Rattle.sql_bind.specs.Meaning.{IsMeaning};

/// A reference means the one column that it can name. Where it can name none it is unknown, and
/// where it can name two it is ambiguous.
pub fn one_meaning()
    ensures { (scope : List FromTable) (reference : ColRef)
        → IsMeaning scope reference (the_column_of scope reference) }
{}
