//! The items of a JSON list, one after the other.

ghost use Rattle.std.specs.Prelude.{◌≡◌, [], ◌∷◌, ◌++◌, IfOk};
ghost use Rattle.serde_json.specs.Data.{boolean, number, string};
ghost use Rattle.serde_json.specs.Find.{of_integer};
ghost use Rattle.serde_json.specs.View.{view as data_of};
ghost use Rattle.history_text.specs.Lines as lines;

use base_types::{Memory, Text};
use serde_json::Value;
use std::alloc::Global;

/// A JSON list that is being made.
#[derive(Drop)]
pub(crate) struct Items {
    values: Vec<Value>,
}

impl Items {
    ghost use Rattle.history_text.specs.Inside.Parts.{parts_of};

    pub(crate) fn new(alloc: Global) -> Items
        ensures { parts_of result ≡ [] }
    {
        Items {
            values: Vec::new(alloc),
        }
    }

    /// A list that begins with a word.
    pub(crate) fn of(alloc: Global, word: &str) -> Result<Items, Memory>
        ensures { IfOk result (λ items. parts_of items ≡ string word.now ∷ []) }
    {
        Items::new(alloc).word(word)
    }

    pub(crate) fn allocator(&self) -> Global {
        *self.values.allocator()
    }

    pub(crate) fn value(self, value: Value) -> Result<Items, Memory>
        ensures { IfOk result (λ items. parts_of items ≡ parts_of self ++ data_of value ∷ []) }
    {
        let mut values = self.values;
        values.push(value)?;
        Ok(Items { values })
    }

    pub(crate) fn word(self, word: &str) -> Result<Items, Memory>
        ensures { IfOk result (λ items. parts_of items ≡ parts_of self ++ string word.now ∷ []) }
    {
        let value = Value::try_from_str(self.allocator(), word)?;
        self.value(value)
    }

    pub(crate) fn text(self, text: &Text) -> Result<Items, Memory>
        ensures { IfOk result (λ items. parts_of items ≡ parts_of self ++ string text.now ∷ []) }
    {
        self.word(text.as_str())
    }

    pub(crate) fn text_or_null(self, text: &Option<Text>) -> Result<Items, Memory>
        ensures { IfOk result (λ items. parts_of items ≡ parts_of self ++ lines.text_or_null text.now ∷ []) }
    {
        match text {
            None => self.value(Value::Null),
            Some(text) => self.text(text),
        }
    }

    pub(crate) fn whole(self, whole: u64) -> Result<Items, Memory>
        ensures { IfOk result (λ items. parts_of items ≡ parts_of self ++ lines.whole whole ∷ []) }
    {
        self.value(Value::from(whole))
    }

    pub(crate) fn integer(self, integer: i64) -> Result<Items, Memory>
        ensures { IfOk result (λ items. parts_of items ≡ parts_of self ++ number (of_integer integer) ∷ []) }
    {
        self.value(Value::from(integer))
    }

    pub(crate) fn flag(self, flag: bool) -> Result<Items, Memory>
        ensures { IfOk result (λ items. parts_of items ≡ parts_of self ++ boolean flag ∷ []) }
    {
        self.value(Value::from(flag))
    }

    /// The list as a value.
    pub(crate) fn into_value(self) -> Value
        ensures { data_of result ≡ lines.list (parts_of self) }
    {
        Value::Array(self.values)
    }
}
