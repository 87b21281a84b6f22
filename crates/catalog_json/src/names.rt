//! Names that differ.
ghost use Rattle.std.specs.Prelude.{◌≡◌, ◌∷◌, [], ◌++◌, not, if◌then◌else◌, option_map, string_bytes, IfOk, IfErr};
ghost use Rattle.std.specs.List.{list_any};
ghost use Rattle.catalog_json.specs.declared.fault.Fault.TheVariants.{Memory};
ghost use Rattle.std.specs.Str.{bytes_eq};
ghost use Rattle.serde_json.specs.View.{view};
ghost use Rattle.catalog_json.specs.Walk.{Yields, new_name_at};

use crate::fault::Fault;
use crate::member::take_name;
use crate::place::Place;
use indexmap::IndexSet;
use orca_base::Text;
use serde_json::Value;
use std::alloc::Global;
use std::marker::Model;

/// The names of tables.
#[derive(Drop)]
pub struct TableNames {
    set: IndexSet<String>,
}

impl Model for TableNames {
    ghost use Rattle.std.specs.Prelude.{List, ℕ, map, string_bytes};

    ghost Value = { List (List ℕ) };

    ghost view = { λ n. map string_bytes n.set.keys };
}

impl TableNames {
    /// No names yet, and room for so many.
    pub fn with_capacity(alloc: Global, count: usize) -> Result<TableNames, Fault>
        ensures empty { IfOk result (λ names. names ≡ []) }
        ensures memory { IfErr result (λ e. e ≡ Memory) }
    {
        Ok(TableNames {
            set: IndexSet::with_capacity(alloc, count)?,
        })
    }

    /// Whether the name is new; then it is added.
    fn add(&mut self, name: String) -> Result<bool, Fault>
        ensures added { IfOk result (λ new. new ≡ not (list_any (bytes_eq (string_bytes name)) self.old)) }
        ensures names { IfOk result
            (λ new. self.new ≡ (if new then self.old ++ string_bytes name ∷ [] else self.old)) }
        ensures memory { IfErr result (λ e. e ≡ Memory) }
    {
        Ok(self.set.insert(name)?)
    }

    /// Reads a name and adds it.
    #[tactic(auto, unfolding(crate::specs::Walk::new_name_at))]
    pub fn read_new(
        &mut self,
        alloc: Global,
        value: Option<Value>,
        place: Place,
    ) -> Result<Text, Fault>
        ensures read { Yields (new_name_at place self.old (option_map view value)) result }
        ensures added { IfOk result (λ name. self.new ≡ self.old ++ name ∷ []) }
    {
        let name = take_name(value, place)?;
        let copied = Text::of(String::from_str(alloc, name.as_str())?);
        if !self.add(name)? {
            return Err(Fault::Twice(place));
        }
        Ok(copied)
    }
}
