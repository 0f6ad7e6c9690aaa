//! The conditions of calls.

ghost use Rattle.std.specs.Prelude.{◌≡◌, Some};
ghost use Rattle.tag_text.specs.Pieces.{part_of};
ghost use Rattle.scopes.specs.Substitution as meant;
ghost use Rattle.meaning.specs.Calls as calls;
ghost use Rattle.meaning.specs.declared.lines.Place.{Place};
ghost use Rattle.tree_types.specs.declared.node.Kind.{Kind};
ghost use Rattle.call_texts.specs.Told.{Says, Stops, stopped_when};

use crate::{Halt, said};
use scopes::Scope;
use std::alloc::Global;
use tag_text::{Piece, TagText};
use tree_types::Note;
use when_expr::law::when_says;
use when_expr::{When, WhenRefused, eval, parse_when};

/// Whether a condition is true in a scope, once its tags are replaced.
pub fn is_true(alloc: Global, scope: &Scope, when: &TagText) -> Result<bool, Halt>
    ensures { Says result (calls.truth_said scope.now when.now) }
{
    let text = said(when, scope)?;
    truth_of_text(alloc, text.as_str())
}

fn truth_of_text(alloc: Global, text: &str) -> Result<bool, Halt>
    ensures { Says result (calls.truth_of_text text.now) }
{
    when_says();
    match parse_when(alloc, text) {
        Ok(when) => truth_of(&when),
        Err(WhenRefused::Bad { .. }) => Err(Halt::Fault(Note::BadWhen)),
        Err(WhenRefused::Memory) => Err(Halt::Memory),
    }
}

fn truth_of(when: &When) -> Result<bool, Halt>
    ensures { Says result (calls.truth_read (Some when.now)) }
{
    match eval(when) {
        Ok(truth) => Ok(truth),
        Err(_) => Err(Halt::Fault(Note::NotNumbers)),
    }
}

/// Whether a call goes on past its condition, which is asked for once before its loop, and once for each item (`at_item`):
/// one with a tag of the item counts for the items alone, and one without before the loop alone.
pub fn goes_on(
    alloc: Global,
    scope: &Scope,
    when: &Option<TagText>,
    at_item: bool,
) -> Result<bool, Halt>
    ensures { (place : Place) (k : Kind) →
        Stops place k result (stopped_when at_item place k scope.now when.now) }
{
    let Some(when) = when else {
        return Ok(true);
    };
    if has_item_tag(when) != at_item {
        return Ok(true);
    }
    is_true(alloc, scope, when)
}

/// Whether a text has a tag of the item of a loop: such a condition is evaluated for each item.
pub fn has_item_tag(text: &TagText) -> bool
    ensures { result ≡ meant.has_item_tag text.now }
{
    for i in 0..text.len() {
        if is_item_tag(text.piece(i)) {
            return true;
        }
    }
    false
}

fn is_item_tag(piece: Piece<'_>) -> bool
    ensures { result ≡ meant.is_item_tag (part_of piece.entry) }
{
    match piece {
        Piece::Plain(_) => false,
        Piece::Tag(name) => name == "item" || name.starts_with("item."),
    }
}
