//! What can be read from a value, from the fields of an object, from a text, and from a key with its value.

ghost use Rattle.std.specs.Prelude.{◌≡◌, ℕ, List as Seq, Option, IfOk};
ghost use Rattle.serde_json.specs.Data.{Data};
ghost use Rattle.serde_json.specs.View.{view};
ghost use Rattle.field_kinds.specs.Reading.{Read};
ghost use Rattle.field_kinds.specs.Refusing.{Reads};

use crate::KindRefused;
use base_types::Memory;
use json_fields::FieldPath;
use serde_json::Value;
use std::alloc::Global;

/// A way to read a value. Mostly it is the type that is read; a type of its own stands for a second way to read a type,
/// and for a way to read one of another crate.
pub trait Readable {
    /// What is read, mostly `Self`.
    type Made: Drop;

    /// What must be known of the surroundings, `()` where that is nothing.
    type Around;

    /// What a value at a path reads as.
    ghost kind: { Self.Around → Seq ℕ → Data → Read Self.Made };

    /// Reads the value at a path.
    fn read(
        alloc: Global,
        value: &Value,
        at: &FieldPath,
        around: &Self::Around,
    ) -> Result<Self::Made, KindRefused>
        ensures { Reads result (kind around.now at.now (view value.now)) };
}

/// A way to read an object: its fields in reading order. `Object<T>` reads a value by it.
pub trait Fields {
    /// What is read.
    type Made: Drop;

    /// What must be known of the surroundings, `()` where that is nothing.
    type Around;

    /// What the fields of the object at a path read as.
    ghost fields: { Self.Around → Seq ℕ → Data → Read Self.Made };

    /// Reads the fields of the object at a path.
    fn read_fields(
        alloc: Global,
        object: &Value,
        at: &FieldPath,
        around: &Self::Around,
    ) -> Result<Self::Made, KindRefused>
        ensures { Reads result (fields around.now at.now (view object.now)) };
}

/// A way to read a member of a map: its key and its value.
pub trait Keyed {
    /// What is read.
    type Made: Drop;

    /// What must be known of the surroundings, `()` where that is nothing.
    type Around;

    /// What a value under a key reads as, at the path of the value.
    ghost entry: { Self.Around → Seq ℕ → Seq ℕ → Data → Read Self.Made };

    /// Reads the value at a path under a key.
    fn read_entry(
        alloc: Global,
        key: &str,
        value: &Value,
        at: &FieldPath,
        around: &Self::Around,
    ) -> Result<Self::Made, KindRefused>
        ensures { Reads result (entry around.now key.now at.now (view value.now)) };
}

/// A grammar of texts.
pub trait Grammar {
    /// What a text of it means.
    type Meaning: Drop;

    /// What a text means, and None where it is not of the grammar.
    ghost meaning: { Seq ℕ → Option Self.Meaning };

    /// Reads a text.
    fn read(alloc: Global, text: &str) -> Result<Option<Self::Meaning>, Memory>
        ensures { IfOk result (λ read. read ≡ meaning text.now) };
}
