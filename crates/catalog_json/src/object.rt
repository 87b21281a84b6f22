//! Objects, whose members can be taken out of them.
ghost use Rattle.std.specs.Prelude.{◌≡◌, ℕ, List, false, option_map};
ghost use Rattle.std.specs.Str.{bytes_eq};
ghost use Rattle.serde_json.specs.Find as find;
ghost use Rattle.serde_json.specs.View.{view};
ghost use Rattle.catalog_json.specs.Object.{data_of};
ghost use Rattle.catalog_json.specs.Walk.{object_at, seen};

use crate::fault::Fault;
use crate::place::Place;
use serde_json::{Map, Value};

/// The members of an object.
#[derive(Drop)]
pub struct Object {
    members: Map<String, Value>,
}

impl Object {
    pub fn of(value: Value, place: Place) -> Result<Object, Fault>
        ensures { seen data_of result ≡ object_at place (view value) }
    {
        match value {
            Value::Object(members) => Ok(Object { members }),
            _ => Err(Fault::Shape(place)),
        }
    }

    pub fn get(&self, name: &str) -> Option<&Value>
        ensures { option_map (λ v. view v.now) result ≡ find.get name.now (data_of self.now) }
    {
        self.members.get(name)
    }

    /// Takes a member's value out. No clause says what the member is from then on.
    pub fn take(&mut self, name: &str) -> Option<Value>
        ensures taken { option_map view result ≡ find.get name.now (data_of self.old) }
        ensures others { (other : List ℕ) → bytes_eq name.now other ≡ false
            → find.get other (data_of self.new) ≡ find.get other (data_of self.old) }
    {
        match self.members.get_mut(name) {
            Some(value) => Some(value.take()),
            None => None,
        }
    }
}
