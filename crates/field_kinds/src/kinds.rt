//! The ways to read that are no reader's own: texts, texts of a grammar, objects by their fields, and lists.

ghost use Rattle.std.specs.Prelude.{◌≡◌};
ghost use Rattle.serde_json.specs.View.{view};
ghost use Rattle.field_kinds.specs.Reading.{or_bad};
ghost use Rattle.field_kinds.specs.Refusing.{Reads};
ghost use Rattle.field_kinds.specs.Kinds.{text, any_text, of, object_of, all_of, list_of};

use crate::refused::refused_at;
use crate::rules::{BAD_TEXT, WRONG_KIND};
use crate::{Fields, Grammar, KindRefused, Readable, all_of, list_of, needs_object};
use base_types::{List, Text};
use json_fields::{FieldPath, any_text};
use serde_json::Value;
use std::alloc::Global;
use std::marker::PhantomData;

/// A text.
impl Readable for Text {
    type Made = Text;

    type Around = ();

    ghost kind = { λ _. text };

    fn read(alloc: Global, value: &Value, at: &FieldPath, _: &()) -> Result<Text, KindRefused> {
        match value {
            Value::String(text) => Ok(Text::from_text(alloc, text.as_str())?),
            _ => Err(refused_at(WRONG_KIND, at)?),
        }
    }
}

/// A text, a whole number or a truth value, as text.
pub struct AnyText;

impl Readable for AnyText {
    type Made = Text;

    type Around = ();

    ghost kind = { λ _. any_text };

    fn read(alloc: Global, value: &Value, at: &FieldPath, _: &()) -> Result<Text, KindRefused> {
        match any_text(alloc, value)? {
            Some(text) => Ok(text),
            None => Err(refused_at(WRONG_KIND, at)?),
        }
    }
}

// What the text at a path means by a grammar.
pub(crate) fn meaning_of<G: Grammar>(
    alloc: Global,
    text: &Text,
    at: &FieldPath,
) -> Result<G::Meaning, KindRefused>
    ensures { Reads result (or_bad at.now (G.meaning text.now)) }
{
    match G::read(alloc, text.as_str())? {
        Some(meaning) => Ok(meaning),
        None => Err(refused_at(BAD_TEXT, at)?),
    }
}

/// What a text means by a grammar.
pub struct TextBy<G> {
    of: PhantomData<G>,
}

impl<G: Grammar> Readable for TextBy<G> {
    type Made = G::Meaning;

    type Around = ();

    ghost kind = { λ _. of G.meaning text };

    fn read(
        alloc: Global,
        value: &Value,
        at: &FieldPath,
        around: &(),
    ) -> Result<G::Meaning, KindRefused> {
        let text = Text::read(alloc, value, at, around)?;
        meaning_of::<G>(alloc, &text, at)
    }
}

/// What a text, a whole number or a truth value, as text, means by a grammar.
pub struct AnyTextBy<G> {
    of: PhantomData<G>,
}

impl<G: Grammar> Readable for AnyTextBy<G> {
    type Made = G::Meaning;

    type Around = ();

    ghost kind = { λ _. of G.meaning any_text };

    fn read(
        alloc: Global,
        value: &Value,
        at: &FieldPath,
        around: &(),
    ) -> Result<G::Meaning, KindRefused> {
        let text = AnyText::read(alloc, value, at, around)?;
        meaning_of::<G>(alloc, &text, at)
    }
}

/// An object, by its fields.
pub struct Object<T> {
    of: PhantomData<T>,
}

impl<T: Fields> Readable for Object<T> {
    type Made = T::Made;

    type Around = T::Around;

    ghost kind = { λ around. object_of (T.fields around) };

    fn read(
        alloc: Global,
        value: &Value,
        at: &FieldPath,
        around: &T::Around,
    ) -> Result<T::Made, KindRefused> {
        needs_object(value, at)?;
        T::read_fields(alloc, value, at, around)
    }
}

/// A list of any length.
impl<T: Readable> Readable for List<T> {
    type Made = List<T::Made>;

    type Around = T::Around;

    ghost kind = { λ around. all_of (T.kind around) };

    fn read(
        alloc: Global,
        value: &Value,
        at: &FieldPath,
        around: &T::Around,
    ) -> Result<List<T::Made>, KindRefused> {
        all_of::<T>(alloc, value, at, around)
    }
}

/// A list of at most so many members.
pub struct UpTo<T, const MOST: usize> {
    of: PhantomData<T>,
}

impl<T: Readable, const MOST: usize> Readable for UpTo<T, MOST> {
    type Made = List<T::Made>;

    type Around = T::Around;

    ghost kind = { λ around. list_of MOST (T.kind around) };

    fn read(
        alloc: Global,
        value: &Value,
        at: &FieldPath,
        around: &T::Around,
    ) -> Result<List<T::Made>, KindRefused> {
        list_of::<T>(alloc, value, MOST, at, around)
    }
}
