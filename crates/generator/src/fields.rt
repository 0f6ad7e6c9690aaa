//! A JSON object that is being made.

ghost use Rattle.std.specs.Prelude.{◌≡◌, IfOk};
ghost use Rattle.serde_json.specs.Data.{string, object, no_members, put};
ghost use Rattle.serde_json.specs.View.{view as data_of};

use base_types::Memory;
use serde_json::{Map, Value};
use std::alloc::Global;

/// A JSON object that is being made. Its members are kept in the order of their keys.
#[derive(Drop)]
pub(crate) struct Fields {
    alloc: Global,
    members: Map<String, Value>,
}

impl Fields {
    ghost use Rattle.generator.specs.Inside.Made.{members_in};

    pub(crate) fn new(alloc: Global) -> Fields
        ensures { members_in result ≡ no_members }
    {
        Fields {
            alloc,
            members: Map::new(alloc),
        }
    }

    /// With this member too.
    pub(crate) fn value(self, key: &str, value: Value) -> Result<Fields, Memory>
        ensures { IfOk result (λ fields. members_in fields ≡ put key.now (data_of value) (members_in self)) }
    {
        let alloc = self.alloc;
        let mut members = self.members;
        serde_json::put(&mut members, alloc, key, value)?;
        Ok(Fields { alloc, members })
    }

    pub(crate) fn text(self, key: &str, text: &str) -> Result<Fields, Memory>
        ensures { IfOk result (λ fields. members_in fields ≡ put key.now (string text.now) (members_in self)) }
    {
        let value = Value::try_from_str(self.alloc, text)?;
        self.value(key, value)
    }

    /// The object as a value.
    pub(crate) fn into_value(self) -> Value
        ensures { data_of result ≡ object (members_in self) }
    {
        Value::Object(self.members)
    }
}
