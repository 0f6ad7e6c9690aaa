//! The items of loops.

ghost use Rattle.std.specs.Prelude.{◌++◌, IfOk, IsTrue};
ghost use Rattle.std.specs.List.{list_all};
ghost use Rattle.scopes.specs.Values.{HasValuesOf};
ghost use Rattle.fanout.specs.Items as meant;
ghost use Rattle.fanout.specs.ItemTexts.{item_tags};
ghost use Rattle.call_texts.specs.Told.{Says};

use crate::Halt;
use base_types::Memory;
use fanout::{FanRefused, Items, add_item_tags, items};
use scopes::{Scope, Tags};
use std::alloc::Global;
use tree_types::Note;
use wf_manifest::{Json, Loop};

/// The items of a loop in a scope, or its first fault. Each of them can be given to `item_scope`.
pub fn loop_items(alloc: Global, each: &Loop, scope: &Scope) -> Result<Items, Halt>
    ensures told { Says result (meant.items scope.now each.now) }
    ensures whole { IfOk result (λ items. IsTrue (list_all meant.is_whole items)) }
{
    match items(alloc, each, scope) {
        Ok(items) => Ok(items),
        Err(FanRefused::NotList) => Err(Halt::Fault(Note::NotList)),
        Err(FanRefused::BadItem) => Err(Halt::Fault(Note::BadItem)),
        Err(FanRefused::BadNumber) => Err(Halt::Fault(Note::BadNumber)),
        Err(FanRefused::BadFormat) => Err(Halt::Fault(Note::BadFormat)),
        Err(FanRefused::TooManyItems) => Err(Halt::Fault(Note::TooManyItems)),
        Err(FanRefused::Unresolved { tag }) => Err(Halt::Fault(Note::Unresolved(tag))),
        Err(FanRefused::Memory) => Err(Halt::Memory),
    }
}

/// The scope of one item: its tags, over those of the call.
pub fn item_scope(alloc: Global, scope: &Scope, item: &Json) -> Result<Scope, Memory>
    requires { IsTrue (meant.is_whole item.now) }
    ensures { IfOk result (λ inner. HasValuesOf inner (item_tags item.now ++ scope.now)) }
{
    let mut tags = Tags::new(alloc);
    add_item_tags(alloc, &mut tags, item)?;
    scope.with(tags)
}
