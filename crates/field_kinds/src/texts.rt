//! Fields that are texts, or texts of a grammar.

ghost use Rattle.std.specs.Prelude.{◌≡◌};
ghost use Rattle.serde_json.specs.View.{view};
ghost use Rattle.field_kinds.specs.Refusing.{Reads};
ghost use Rattle.field_kinds.specs.Kinds.{text, any_text, of};
ghost use Rattle.field_kinds.specs.Fields.{optional, required, required_if, written_text, written_or, written_of};

use crate::kinds::{AnyText, AnyTextBy, TextBy, meaning_of};
use crate::{Grammar, KindRefused, optional, required};
use base_types::Text;
use json_fields::FieldPath;
use serde_json::Value;
use std::alloc::Global;

/// A text.
pub fn optional_text(
    alloc: Global,
    object: &Value,
    name: &str,
    at: &FieldPath,
) -> Result<Option<Text>, KindRefused>
    ensures { Reads result (optional text name.now at.now (view object.now)) }
{
    optional::<Text>(alloc, object, name, at, &())
}

/// A text that must be there.
pub fn required_text(
    alloc: Global,
    object: &Value,
    name: &str,
    at: &FieldPath,
) -> Result<Text, KindRefused>
    ensures { Reads result (required text name.now at.now (view object.now)) }
{
    required::<Text>(alloc, object, name, at, &())
}

/// A text, a whole number or a truth value, as text.
pub fn optional_any_text(
    alloc: Global,
    object: &Value,
    name: &str,
    at: &FieldPath,
) -> Result<Option<Text>, KindRefused>
    ensures { Reads result (optional any_text name.now at.now (view object.now)) }
{
    optional::<AnyText>(alloc, object, name, at, &())
}

/// What a text means by a grammar, given as any text.
pub fn optional_by<G: Grammar>(
    alloc: Global,
    object: &Value,
    name: &str,
    at: &FieldPath,
) -> Result<Option<G::Meaning>, KindRefused>
    ensures { Reads result (optional (of G.meaning any_text) name.now at.now (view object.now)) }
{
    optional::<AnyTextBy<G>>(alloc, object, name, at, &())
}

/// What a text that must be there means by a grammar, given as any text.
pub fn required_by<G: Grammar>(
    alloc: Global,
    object: &Value,
    name: &str,
    at: &FieldPath,
) -> Result<G::Meaning, KindRefused>
    ensures { Reads result (required (of G.meaning any_text) name.now at.now (view object.now)) }
{
    required::<AnyTextBy<G>>(alloc, object, name, at, &())
}

/// What a text means by a grammar, given as a text alone.
pub fn optional_text_by<G: Grammar>(
    alloc: Global,
    object: &Value,
    name: &str,
    at: &FieldPath,
) -> Result<Option<G::Meaning>, KindRefused>
    ensures { Reads result (optional (of G.meaning text) name.now at.now (view object.now)) }
{
    optional::<TextBy<G>>(alloc, object, name, at, &())
}

/// What a text that must be there means by a grammar, given as a text alone.
pub fn required_text_by<G: Grammar>(
    alloc: Global,
    object: &Value,
    name: &str,
    at: &FieldPath,
) -> Result<G::Meaning, KindRefused>
    ensures { Reads result (required (of G.meaning text) name.now at.now (view object.now)) }
{
    required::<TextBy<G>>(alloc, object, name, at, &())
}

/// A text, an empty one counting as absent.
pub fn written_text(
    alloc: Global,
    object: &Value,
    name: &str,
    at: &FieldPath,
) -> Result<Option<Text>, KindRefused>
    ensures { Reads result (written_text name.now at.now (view object.now)) }
{
    match optional_text(alloc, object, name, at)? {
        Some(text) => {
            if text.as_str().is_empty() {
                Ok(None)
            } else {
                Ok(Some(text))
            }
        }
        None => Ok(None),
    }
}

/// A text, and `otherwise` where the field is absent or an empty text.
pub fn written_text_or(
    alloc: Global,
    object: &Value,
    name: &str,
    otherwise: &str,
    at: &FieldPath,
) -> Result<Text, KindRefused>
    ensures { Reads result (written_or otherwise.now name.now at.now (view object.now)) }
{
    match written_text(alloc, object, name, at)? {
        Some(text) => Ok(text),
        None => Ok(Text::from_text(alloc, otherwise)?),
    }
}

/// What a text means by a grammar, an empty text counting as absent.
pub fn written_text_by<G: Grammar>(
    alloc: Global,
    object: &Value,
    name: &str,
    at: &FieldPath,
) -> Result<Option<G::Meaning>, KindRefused>
    ensures { Reads result (written_of G.meaning name.now at.now (view object.now)) }
{
    match written_text(alloc, object, name, at)? {
        None => Ok(None),
        Some(text) => Ok(Some(meaning_of::<G>(alloc, &text, &at.field(name)?)?)),
    }
}

/// A text that must be there where it is `asked`, and is not read elsewhere.
pub fn text_if(
    asked: bool,
    alloc: Global,
    object: &Value,
    name: &str,
    at: &FieldPath,
) -> Result<Option<Text>, KindRefused>
    ensures { Reads result (required_if asked text name.now at.now (view object.now)) }
{
    if asked {
        Ok(Some(required_text(alloc, object, name, at)?))
    } else {
        Ok(None)
    }
}

/// What a text means by a grammar that must be there where it is `asked`, and is not read elsewhere.
pub fn text_by_if<G: Grammar>(
    asked: bool,
    alloc: Global,
    object: &Value,
    name: &str,
    at: &FieldPath,
) -> Result<Option<G::Meaning>, KindRefused>
    ensures { Reads result
        (required_if asked (of G.meaning text) name.now at.now (view object.now)) }
{
    if asked {
        Ok(Some(required_text_by::<G>(alloc, object, name, at)?))
    } else {
        Ok(None)
    }
}
