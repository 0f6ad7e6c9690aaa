//! The items of a loop.

ghost use Rattle.std.specs.Prelude.{IfOk, IsTrue};
ghost use Rattle.std.specs.List.{list_all};
ghost use Rattle.fanout.specs.Faults.{Tells};
ghost use Rattle.fanout.specs.Items.{items as items_meant, is_whole};

use crate::lists::{items_of, read_items};
use crate::said::{said_or_none, said_text, said_value};
use crate::sequence::sequence_items;
use crate::{FanRefused, Items};
use scopes::Scope;
use std::alloc::Global;
use wf_manifest::Loop;

/// The items of a loop in a scope, or its first fault: a tag without a value, then what is no list, a number that is
/// no whole number of 64 bits, a number or a format of a sequence, and more than 1,000 items. A sequence is refused
/// before its items are made. Each item can be said by `item_text` and `name_text`.
pub fn items(alloc: Global, each: &Loop, scope: &Scope) -> Result<Items, FanRefused>
    ensures told { Tells (λ items. items) result (items_meant scope.now each.now) }
    ensures whole { IfOk result (λ items. IsTrue (list_all is_whole items)) }
{
    match each {
        Loop::Items(list) => items_of(alloc, said_value(alloc, list.value(), scope)?),
        Loop::Param(text) => {
            let text = said_text(text, scope)?;
            read_items(alloc, text.as_str())
        }
        Loop::Sequence {
            count,
            start,
            end,
            format,
        } => {
            let count = said_or_none(count, scope)?;
            let start = said_or_none(start, scope)?;
            let end = said_or_none(end, scope)?;
            let format = said_or_none(format, scope)?;
            sequence_items(alloc, &count, &start, &end, &format)
        }
    }
}
