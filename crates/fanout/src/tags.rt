//! The tags of an item.

ghost use Rattle.std.specs.Prelude.{◌≡◌, ◌++◌, ◌∷◌, codes, OnOk, OnErr, IsTrue};
ghost use Rattle.serde_json.specs.View.{view, members_view};
ghost use Rattle.scopes.specs.Values.{HasValuesOf, HasValuesOfEither};
ghost use Rattle.fanout.specs.ItemTexts.{item_tags, item_text as text_of_item, member_tags};
ghost use Rattle.fanout.specs.Items.{is_whole, members_are_whole};

use crate::texts::{item_text, value_text};
use base_types::{Memory, Text};
use scopes::Tags;
use serde_json::{Map, Value};
use std::alloc::Global;
use wf_manifest::Json;

/// Gives the tags of an item their values: `item`, and `item.k` for each member `k` of a map. Each item of a loop has
/// whole numbers alone. After want of memory some of these tags may have them; each other tag keeps its value.
pub fn add_item_tags(alloc: Global, tags: &mut Tags, item: &Json) -> Result<(), Memory>
    requires { IsTrue (is_whole item.now) }
    ensures ok { OnOk result (HasValuesOf tags.new (item_tags item.now ++ tags.old)) }
    ensures err { OnErr result
        (HasValuesOfEither tags.new tags.old (item_tags item.now ++ tags.old)) }
{
    let Some(members) = item.value().as_object() else {
        return add_item(alloc, tags, item);
    };
    add_members(alloc, tags, members)?;
    add_item(alloc, tags, item)
}

fn add_item(alloc: Global, tags: &mut Tags, item: &Json) -> Result<(), Memory>
    requires { IsTrue (is_whole item.now) }
    ensures ok { OnOk result
        (HasValuesOf tags.new ((codes "item", text_of_item item.now) ∷ tags.old)) }
    ensures err { OnErr result (tags.new ≡ tags.old) }
{
    let text = item_text(alloc, item)?;
    tags.add(Text::from_text(alloc, "item")?, text)
}

fn add_members(alloc: Global, tags: &mut Tags, members: &Map<String, Value>) -> Result<(), Memory>
    requires { IsTrue (members_are_whole (members_view members.now.entries)) }
    ensures ok { OnOk result (HasValuesOf tags.new
        (member_tags (members_view members.now.entries) ++ tags.old)) }
    ensures err { OnErr result (HasValuesOfEither tags.new tags.old
        (member_tags (members_view members.now.entries) ++ tags.old)) }
{
    for (key, value) in members.iter() {
        add_member(alloc, tags, key.as_str(), value)?;
    }
    Ok(())
}

fn add_member(alloc: Global, tags: &mut Tags, key: &str, value: &Value) -> Result<(), Memory>
    requires { IsTrue (is_whole (view value.now)) }
    ensures ok { OnOk result (HasValuesOf tags.new
        ((codes "item." ++ key.now, text_of_item (view value.now)) ∷ tags.old)) }
    ensures err { OnErr result (tags.new ≡ tags.old) }
{
    let text = value_text(alloc, value)?;
    let mut tag = Text::from_text(alloc, "item.")?;
    tag.push(key)?;
    tags.add(tag, text)
}
