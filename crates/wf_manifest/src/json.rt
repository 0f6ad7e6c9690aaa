//! A JSON value, as contracts want it.

ghost use Rattle.std.specs.Prelude.{◌≡◌};
ghost use Rattle.serde_json.specs.View.{view as data_of};

use base_types::{Memory, TryCopy};
use serde_json::Value;
use std::marker::Model;

/// A JSON value that contracts see as its data, whatever room it has.
#[derive(Debug, Drop)]
pub struct Json {
    value: Value,
}

impl Model for Json {
    ghost use Rattle.serde_json.specs.Data.{Data};
    ghost use Rattle.wf_manifest.specs.JsonCode.{json_code};

    ghost Value = { Data };

    ghost coded = { json_code };

    ghost use Rattle.serde_json.specs.View.{view as data_of};

    ghost view = { λ json. data_of json.value };
}

impl Json {
    /// The JSON value as contracts want it.
    pub fn new(value: Value) -> Json
        ensures { result ≡ data_of value }
    {
        Json { value }
    }

    /// The value itself.
    pub fn value(&self) -> &Value
        ensures { data_of result.now ≡ self.now }
    {
        &self.value
    }
}

impl TryCopy for Json {
    fn copy(&self) -> Result<Json, Memory> {
        let value = self.value.clone()?;
        Ok(Json { value })
    }
}
